// Both octet rings against the tables of RFC 6330, section 5.7, which the files of data/ have, and against each other.
use algebra::agreement::{answer_alike, invert_alike};
use algebra::ring::Ring;
use rings::octets::Octets;
use rings::octets::by_shifts::ByShifts;
use rings::octets::by_table::ByTable;
use std::fs;

// OCT_EXP and OCT_LOG.
#[derive(Drop)]
struct Tables {
    powers: Vec<u32>,
    logarithms: Vec<u32>,
}

impl Tables {
    fn read(rt: &HostRuntime) -> anyhow::Result<Tables> {
        Ok(Tables {
            powers: read_table(rt, "oct_exp.txt")?,
            logarithms: read_table(rt, "oct_log.txt")?,
        })
    }

    // The product as RFC 6330 has it, if the tables have the entries.
    fn product(&self, a: u32, b: u32) -> Option<u32> {
        if a == 0 || b == 0 {
            return Some(0);
        }
        let i = self.logarithms.get(a as usize - 1)?;
        let j = self.logarithms.get(b as usize - 1)?;
        let k = (*i as usize).checked_add(*j as usize)?;
        self.powers.get(k).copied()
    }
}

pub(crate) fn run(rt: &HostRuntime) -> anyhow::Result<()> {
    let tables = Tables::read(rt)?;
    let powers = tables.powers.len();
    let logarithms = tables.logarithms.len();
    println!(rt; "RFC 6330: {powers} powers, {logarithms} logarithms")?;
    let by_table = count_pairs(|a, b| tables.product(a, b) == Some(Octets(ByTable).product(a, b)));
    println!(rt; "octets by table: {by_table} of 65536 products are RFC 6330's")?;
    let by_shifts = count_pairs(|a, b| tables.product(a, b)
        == Some(Octets(ByShifts).product(a, b)));
    println!(rt; "octets by shifts: {by_shifts} of 65536 products are RFC 6330's")?;
    let pairs = count_pairs(|a, b| answer_alike(&Octets(ByTable), &Octets(ByShifts), a, b));
    println!(rt; "octets by table and by shifts: alike for {pairs} of 65536 pairs")?;
    let inverses = (0..256u32)
        .filter(|code| invert_alike(&Octets(ByTable), &Octets(ByShifts), *code))
        .count();
    println!(rt; "octets by table and by shifts: {inverses} of 256 inverses alike")?;
    Ok(())
}

// The numbers of a file; lines that begin with # are passed over.
fn read_table(rt: &HostRuntime, path: &str) -> anyhow::Result<Vec<u32>> {
    let text = fs::read_to_string(rt, path)?;
    let mut table = Vec::new(rt.alloc());
    let words = text
        .lines()
        .filter(|line| !line.starts_with('#'))
        .flat_map(|line| line.split_whitespace());
    for word in words {
        table.push(word.parse::<u32>()?)?;
    }
    Ok(table)
}

// For how many pairs of octets the test holds.
fn count_pairs<F: Fn(u32, u32) -> bool>(test: F) -> usize
    requires { F.IsAlwaysCallable test }
{
    (0..65536u32)
        .filter(|pair| test(*pair / 256, *pair % 256))
        .count()
}
