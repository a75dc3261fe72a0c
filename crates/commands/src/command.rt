// What a text asks for on a pass: equations are offered to a block and published, and then questions are asked.
ghost use Rattle.commands.specs.Fields.{field_named};
ghost use Rattle.text.specs.Names.{Names};

use text::words::UnknownWord;

// The field that a pass is computed in. (`RingName` of `requests` is of another format: a request may be over `words`, which is no
// field.)
#[derive(Clone, Copy, Debug, PartialEq, Eq)]
pub enum FieldName {
    Residues,
    Octets,
    OctetsByShifts,
}

impl TryFrom<&[u8]> for FieldName {
    type Error = UnknownWord;

    ghost try_from_gives = { λ w r. Names (field_named w.now) r };

    #[tactic(auto, using(crate::proofs::Naming::fields_read))]
    fn try_from(name: &[u8]) -> Result<FieldName, UnknownWord> {
        match name {
            b"residues" => Ok(FieldName::Residues),
            b"octets" => Ok(FieldName::Octets),
            b"octets-by-shifts" => Ok(FieldName::OctetsByShifts),
            _ => Err(UnknownWord),
        }
    }
}

#[derive(Drop)]
pub enum Command {
    // Opens a block with so many unknowns.
    Unknowns(usize),
    // The equation with these coefficients and this value.
    Offer { coefficients: Vec<u32>, value: u32 },
    Rank,
    Publish,
    Solution,
    Kernel(usize),
    Symbol(usize),
    Report,
}
