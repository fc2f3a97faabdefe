// Files as spreadsheets write them, with values worked out by hand.
use crate::checks::{holds, same};
use dss_script::{ShapeFault, read_column};

#[test]
fn reads_files(rt: HostRuntime) -> Result<(), ShapeFault> {
    let file = b"\xEF\xBB\xBF1\r\n\"0.5\",x\r\n\r\n \t-2e-1 ,,\"a,b\"\n\n.25";
    let values = read_column(rt.alloc(), file)?;
    same(
        &rt,
        values.as_slice(),
        &[1_000_000_000, 500_000_000, -200_000_000, 250_000_000],
    );
    holds(&rt, read_column(rt.alloc(), b"")?.is_empty());
    Ok(())
}

// Each with the record that is bad, counted from 1.
const BAD: [(&[u8], u64); 6] = [
    (b"1\n\n2\nx\n,3\n", 3),
    (b"1\n,3\n", 2),
    (b"hour,mult\n0,1\n", 1),
    (b"1\n\"\"\n", 2),
    (b"1\n\xFF\n", 2),
    (b"1000000000\n", 1),
];

#[test]
fn names_the_first_bad_record(rt: HostRuntime) {
    for (file, number) in &BAD {
        let found = read_column(rt.alloc(), file).err();
        same(&rt, found, Some(ShapeFault::BadValue { number: *number }));
    }
}
