// What a witness tells of itself.
ghost use Rattle.std.specs.Prelude.{◌≡◌, Bool, ltb, [], ◌∷◌, map, length, if◌then◌else◌, Some, None, slice_index_or};
ghost use Rattle.std.specs.Option.{option_map};
ghost use Rattle.bounded.specs.Items.{items};
ghost use Rattle.witness.specs.Views.{execution_of};

use super::super::record::{Access, Source};
use super::Witness;
use bounded::vector::Bounded;

impl Witness {
    /// A witness with one empty path, no sources and no accesses.
    pub fn new() -> Witness
        ensures { execution_of result ≡ record { paths = [] ∷ []; sources = []; order = [] } }
    {
        let mut paths = Bounded::new(Bounded::new(0));
        paths.push(Bounded::new(0));
        Witness {
            paths,
            sources: Bounded::new(Source::default()),
            order: Bounded::new(Access::default()),
        }
    }

    /// The witness with these paths, sources and accesses; nothing where there is no path.
    pub fn from_parts(
        paths: Bounded<Bounded<u8, 16>, 4>,
        sources: Bounded<Source, 64>,
        order: Bounded<Access, 64>,
    ) -> Option<Witness>
        ensures { option_map execution_of result ≡ (if ltb 0 (length (items paths)) then Some (record { paths = map items (items paths); sources = items sources; order = items order }) else None) }
    {
        if paths.len() == 0 {
            return None;
        }
        Some(Witness {
            paths,
            sources,
            order,
        })
    }

    /// How many processors the witness has a path for.
    pub fn processors(&self) -> usize
        ensures { result ≡ length (execution_of self.now).paths }
    {
        self.paths.len()
    }

    /// The places that a processor ran; none past the last processor.
    pub fn path(&self, processor: usize) -> &[u8]
        ensures { result.now ≡ slice_index_or (execution_of self.now).paths processor [] }
    {
        self.paths
            .as_slice()
            .get(processor)
            .map_or(&[], |path| path.as_slice())
    }

    /// The sources of the loads, by processor then position.
    pub fn sources(&self) -> &[Source]
        ensures { result.now ≡ (execution_of self.now).sources }
    {
        self.sources.as_slice()
    }

    /// The accesses in memory order.
    pub fn order(&self) -> &[Access]
        ensures { result.now ≡ (execution_of self.now).order }
    {
        self.order.as_slice()
    }
}
