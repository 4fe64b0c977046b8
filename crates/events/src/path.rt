// What a path comes to.
use super::event::Event;
use bounded::vector::Bounded;
use witness::record::Source;

/// A path's events, and the source record of each of its positions, which counts at loads.
#[derive(Clone, Copy)]
pub struct PathEvents {
    pub events: Bounded<Event, 16>,
    pub sources: Bounded<Source, 16>,
}
