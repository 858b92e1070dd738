// What the readers give of every text.
ghost use Rattle.rsp_scan.specs.Following.{FollowRules};

/// Does nothing. Its clause says that `iri`, `string`, `label` and `tag` follow their rules in every text: it is for those
/// whose own clauses speak of texts that no call reads.
pub fn follow_rules()
    ensures { FollowRules }
{}
