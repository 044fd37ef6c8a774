//! What a load finds.
use gate_journal::{Payload, Payloads};

/// What a load finds: the base that the log's generation begins with, none in generation 0, and the payloads after it
/// with the places of their records.
#[derive(Debug, Drop)]
pub struct LoadedContent {
    pub base: Option<Payload>,
    pub rest: Payloads,
}
