//! `sheetfmt`: a room sheet from standard input, in its canonical form on standard output, or one line
//! `refused NUMBER LAYER LINE`.

#![tactic(auto)]

use canon::format::reply;
use console::run;

fn main(rt: HostRuntime) -> anyhow::Result<()> {
    run(reply, &rt)
}

#[cfg(test)]
mod tests {
    use super::*;
    use console::answer;
    use std::test::Fail;

    // an input that is too long by one byte, or by far, is told from the longest that is read
    #[test]
    fn answers(rt: HostRuntime) -> Result<(), Fail> {
        let heap = rt.alloc();
        for (size, want) in [
            (16_384, "refused 2 sheet 1\n"),
            (16_385, "refused 1 sheet 0\n"),
            (99_999, "refused 1 sheet 0\n"),
        ] {
            let bytes = vec![in heap; b'x'; size]?;
            let mut input: &[u8] = bytes.as_slice();
            let text = answer(reply, &mut input, heap)?;
            assert_eq!(rt; text.as_str(), want);
        }
        Ok(())
    }
}
