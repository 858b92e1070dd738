// Registrations as they are written.
use crate::{Kind, Select};
use rsp_terms::Text;

/// A strategy of a report, by the kind of its word; EVERY has a span of time.
#[derive(Drop)]
pub struct Strategy {
    pub kind: Kind,
    pub period: Option<Text>,
}

/// When a query reports.
#[derive(Drop)]
pub enum Policy {
    /// A profile by the kind of its word.
    Profile(Kind),
    /// All of these strategies, and the kind of the word behind TICK.
    Reporting {
        strategies: Vec<Strategy>,
        tick: Kind,
    },
}

/// A window over a stream. Spans of time are texts.
#[derive(Drop)]
pub struct Window {
    /// The place of FROM in the text, in bytes.
    pub at: usize,
    pub name: Text,
    pub stream: Text,
    pub range: Text,
    /// What stands behind STEP.
    pub slide: Option<Text>,
    /// What stands behind START, in milliseconds since 1970-01-01T00:00:00Z.
    pub origin: Option<u64>,
}

/// A whole text as it is written.
#[derive(Drop)]
pub struct Registration {
    /// The kind of the stream operator's word.
    pub operator: Kind,
    /// The stream that it writes to.
    pub output: Text,
    pub policy: Option<Policy>,
    pub windows: Vec<Window>,
    pub select: Select,
}
