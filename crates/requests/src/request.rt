// What a text asks for: products of matrices over a named ring.
ghost use Rattle.text.specs.Names.{Names};
ghost use Rattle.requests.specs.Format.{ring_named};

use text::words::UnknownWord;

// The ring that a product is computed in. (`FieldName` of `commands` is of another format: a pass is over a field.)
#[derive(Clone, Copy, Debug, PartialEq, Eq)]
pub enum RingName {
    Words,
    Residues,
    Octets,
    OctetsByShifts,
}

impl TryFrom<&[u8]> for RingName {
    type Error = UnknownWord;

    ghost try_from_gives = { λ w r. Names (ring_named w.now) r };

    #[tactic(auto, using(crate::proofs::Naming::rings_read))]
    fn try_from(name: &[u8]) -> Result<RingName, UnknownWord> {
        match name {
            b"words" => Ok(RingName::Words),
            b"residues" => Ok(RingName::Residues),
            b"octets" => Ok(RingName::Octets),
            b"octets-by-shifts" => Ok(RingName::OctetsByShifts),
            _ => Err(UnknownWord),
        }
    }
}

// A matrix as it was read: its cells stand row after row.
#[derive(Drop)]
pub struct Table {
    pub rows: usize,
    pub columns: usize,
    pub cells: Vec<u32>,
}

#[derive(Drop)]
pub enum Request {
    Product {
        ring: RingName,
        left: Table,
        right: Table,
    },
}
