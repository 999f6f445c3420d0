//! Small types over vectors, which contracts see as lists.
ghost use Rattle.std.specs.Prelude.{◌≡◌, List, ℕ};

use std::marker::Model;

/// The UTF-16 units of a name.
#[derive(Debug, Drop)]
pub struct Name {
    units: Vec<u16>,
}

impl Model for Name {
    ghost Value = { List ℕ };

    ghost view = { λ name. name.units.items };
}

impl Name {
    /// A name of these units. It takes no memory.
    pub fn from_vec(items: Vec<u16>) -> Name
        ensures { result ≡ items.items }
    {
        Name { units: items }
    }

    /// Its units.
    pub fn as_slice(&self) -> &[u16]
        ensures { result.now ≡ self.now }
    {
        self.units.as_slice()
    }

    /// Its units in the vector that holds them. It takes no memory.
    pub fn into_vec(self) -> Vec<u16>
        ensures { result.items ≡ self }
    {
        self.units
    }
}

/// A sequence of bytes.
#[derive(Debug, Drop)]
pub struct Octets {
    bytes: Vec<u8>,
}

impl Model for Octets {
    ghost Value = { List ℕ };

    ghost view = { λ octets. octets.bytes.items };
}

impl Octets {
    /// These bytes. It takes no memory.
    pub fn from_vec(items: Vec<u8>) -> Octets
        ensures { result ≡ items.items }
    {
        Octets { bytes: items }
    }

    /// Its bytes.
    pub fn as_slice(&self) -> &[u8]
        ensures { result.now ≡ self.now }
    {
        self.bytes.as_slice()
    }

    /// Its bytes in the vector that holds them. It takes no memory.
    pub fn into_vec(self) -> Vec<u8>
        ensures { result.items ≡ self }
    {
        self.bytes
    }
}
