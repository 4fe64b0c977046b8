// The records of a witness. Any values may stand in them; a checker judges them.
ghost use Rattle.std.specs.Prelude.{◌≡◌, List, ℕ};
ghost use Rattle.witness.specs.Records.{source_bytes, source_of, named_store, access_bytes, access_of};

/// What a load took: the store at a processor's position, or the start where both are FF; and the value.
#[derive(Clone, Copy, PartialEq, Eq, Debug, Default)]
pub struct Source {
    pub processor: u8,
    pub position: u8,
    pub value: u16,
}

impl Source {
    /// The store that the record names; none where it names the start.
    pub fn store(self) -> Option<Access>
        ensures { result ≡ named_store self }
    {
        let Source {
            processor,
            position,
            ..
        } = self;
        let is_start = processor == 0xff && position == 0xff;
        (!is_start).then_some(Access {
            processor,
            position,
        })
    }
}

/// An access in the memory order: the entry at a processor's position.
#[derive(Clone, Copy, PartialEq, Eq, Debug, Default)]
pub struct Access {
    pub processor: u8,
    pub position: u8,
}

/// A record of N bytes.
pub trait Record<const N: usize>: Copy + Default {
    // The record that bytes state, and the bytes of a record.
    ghost record_of: { List ℕ → Self };

    ghost record_bytes: { Self → List ℕ };

    /// The record that these bytes state.
    fn from_bytes(bytes: &[u8; N]) -> Self
        ensures { result ≡ record_of bytes.now };

    /// The bytes of the record.
    fn to_bytes(&self) -> [u8; N]
        ensures { result ≡ record_bytes self.now };
}

impl Record<4> for Source {
    ghost record_of = { source_of };

    ghost record_bytes = { source_bytes };

    fn from_bytes(bytes: &[u8; 4]) -> Source {
        let [processor, position, high, low] = *bytes;
        Source {
            processor,
            position,
            value: u16::from_be_bytes([high, low]),
        }
    }

    fn to_bytes(&self) -> [u8; 4] {
        let [high, low] = self.value.to_be_bytes();
        [self.processor, self.position, high, low]
    }
}

impl Record<2> for Access {
    ghost record_of = { access_of };

    ghost record_bytes = { access_bytes };

    fn from_bytes(bytes: &[u8; 2]) -> Access {
        let [processor, position] = *bytes;
        Access {
            processor,
            position,
        }
    }

    fn to_bytes(&self) -> [u8; 2] {
        [self.processor, self.position]
    }
}
