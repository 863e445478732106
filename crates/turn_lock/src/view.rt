//! What a pass knows.
use std::collections::LinkedList;

/// What contracts see of a pass. No value of it is made: it stands in the rule alone (this project's
/// own).
pub struct View<E> {
    /// What was seen of the history: all of it but the newest entries. The newest entry comes first.
    pub seen: LinkedList<E>,
    /// What the pass and another had both seen when they last joined or met, or no entry. It begins
    /// what was seen.
    pub met: LinkedList<E>,
    /// The places of the entries that the pass added, counted from the oldest entry, which has place 0.
    pub mine: LinkedList<u64>,
    /// A number of entries that the history has, and maybe more.
    pub known: u64,
    /// The ticket, while the pass waits for its turn or has it.
    pub ticket: Option<u64>,
    /// Whether the pass has its turn.
    pub inside: bool,
    /// The mark. Every entry of this mark is at a place of the pass's own.
    pub mark: Option<u64>,
    /// The marks that the first pass gave, or none at every other pass.
    pub given: Option<LinkedList<u64>>,
}
