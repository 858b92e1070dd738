// Property paths as they are written.
use rsp_terms::Text;

/// A property path as it is written. A row of signs is one list, so that its length is no depth.
#[derive(Drop)]
pub enum Path {
    Step(Text),
    /// `^` before a path.
    Inverse(Box<Path>),
    /// Paths with `/` between.
    Sequence(Vec<Path>),
    /// Paths with `|` between.
    Choice(Vec<Path>),
}
