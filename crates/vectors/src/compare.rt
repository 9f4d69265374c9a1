// An output held to the one that is expected.

// The name and `same`, or the first byte that differs; whether it is the same.
pub(crate) fn report(rt: &impl Print, name: &[u8], got: &[u8], wanted: &[u8]) -> bool {
    let _ = rt.write_all(name);
    if got == wanted {
        let _ = println!(rt; ": same");
        return true;
    }
    let n = got.iter().zip(wanted).take_while(|(a, b)| a == b).count();
    let _ = println!(rt; ": differs at byte {n}");
    false
}
