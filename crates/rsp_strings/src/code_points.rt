// The order by code points.
ghost use Rattle.std.specs.Prelude.{◌≡◌};
ghost use Rattle.rsp_strings.specs.CodePoints.{code_point_order};

use std::cmp::Ordering;

/// Which text is less by the code points of its characters (`<` of strings): the first that differs decides, and else
/// the length.
pub fn compare(left: &str, right: &str) -> Ordering
    ensures { result ≡ code_point_order left.now right.now }
{
    left.chars().cmp(right.chars())
}
