// Reading the text of a pass. (`matrix` reads as this does: a crate for both would promise nothing that a contract can say.)
use anyhow::anyhow;
use std::fs;
use std::io::Read;

// The whole file.
pub(crate) fn read_file(rt: &HostRuntime, path: &str) -> anyhow::Result<Vec<u8>> {
    fs::read(rt, path).map_err(|error| anyhow!("cannot read {path}: {error}"))
}

// The whole standard input.
pub(crate) fn read_input(rt: &HostRuntime) -> anyhow::Result<Vec<u8>> {
    let mut text = Vec::new(rt.alloc());
    rt.stdin().read_to_end(&mut text)?;
    Ok(text)
}
