// Generated scripts.
use crate::checks::{holds, same};
use fd_gen::*;
use std::test::Fail;

const ONE_SECTION: &[u8] = b"Clear\n\
        New Circuit.gen basekv=4.16 r1=0 x1=0.001 r0=0 x0=0.001\n\
        New Linecode.g nphases=3 rmatrix=(0.3465 | 0.1560 0.3375 | 0.1580 0.1535 0.3414) \
        xmatrix=(1.0179 | 0.5017 1.0478 | 0.4236 0.3849 1.0348) units=mi\n\
        New Line.l1 bus1=sourcebus bus2=b1 linecode=g length=131 units=ft\n\
        New Load.d1 bus1=b1 kv=4.16 kw=18 vminpu=0.8\n\
        Solve\n";

#[test]
fn one_section_is_written_whole(rt: HostRuntime) -> Result<(), Fail> {
    let mut text = Vec::new(rt.alloc());
    for record in &generate(rt.alloc(), 7, 1)? {
        text.extend_from_slice(record.bytes.as_slice())?;
    }
    same(&rt, text.as_slice(), ONE_SECTION);
    Ok(())
}

#[test]
fn each_section_has_two_lines(rt: HostRuntime) -> Result<(), Fail> {
    let records = generate(rt.alloc(), 7, 79)?;
    holds(&rt, records.len() == 162);
    let last = b"New Line.l79 bus1=b37 bus2=b79 linecode=g length=274 units=ft\n";
    same(&rt, records[159].bytes.as_slice(), last.as_slice());
    Ok(())
}
