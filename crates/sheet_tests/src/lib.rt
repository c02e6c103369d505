//! What reading and formatting sheets should do on examples.

#![tactic(auto)]

ghost use Rattle.sheet_tests.specs.Worked.{WorkedSheets};

/// The worked sheets mean what they should.
pub fn worked_sheets_stand()
    ensures { WorkedSheets }
{}

#[cfg(test)]
mod tests {
    use canon::format::reply;
    use room::array_vec::ArrayVec;
    use room::orders::{Order, Orders};
    use room::piece::Piece;
    use room::refusal::Refusal;
    use room::region::Region;
    use room::span::Span;
    use room::walls::{Cell, WallMap};
    use sheet::lay::read_sheet;
    use std::alloc::{AllocError, Global};
    use std::fmt;
    use std::process::Abort;
    use std::test::Fail;

    const SAMPLE: &str =
        "sheet 2 strict 3 1 2\npiece 3 1 0 1 0 1\npiece 2 1 0 2 0 1\npiece 1 1 0 3 0 1\nbefore 0 2 0 0\nwall ....\nwall ...#\n";

    // Texts that are refused, with the line that says so.
    const REFUSED: [(&str, &str); 49] = [
        ("", "refused 3 sheet 1\n"),
        ("\n", "refused 4 sheet 1\n"),
        ("sheet 1 strict 1 0 0", "refused 2 sheet 1\n"),
        ("sheet 1 strict 1 0 0\n", "refused 3 sheet 2\n"),
        ("sheet 1 strict 1 0 0\npiece 1 0 0", "refused 2 sheet 2\n"),
        (
            "sheet 1 strict 1 0 0\npiece 1 0 0\n\n",
            "refused 3 sheet 3\n",
        ),
        (
            "sheet 1 strict 1 0 0\npiece 1 0 0\nx",
            "refused 3 sheet 3\n",
        ),
        (
            "sheet 1 strict 1 0 0\n\npiece 1 0 0\n",
            "refused 4 sheet 2\n",
        ),
        (
            "sheet 1 strict 1 0 0\npiece 1 0 0\t\n",
            "refused 2 sheet 2\n",
        ),
        (
            "sheet 1 strict 1 0 0\npiece 1 0 0\x7f\n",
            "refused 2 sheet 2\n",
        ),
        (
            "sheet 1 strict 1 0 0\npiece 1 0 0\r\n",
            "refused 2 sheet 2\n",
        ),
        ("sheet 1 Strict 1 0 0\n", "refused 4 sheet 1\n"),
        ("sheet 1 strict 1 0\n", "refused 4 sheet 1\n"),
        ("sheet 1 strict 1 0 0 0\n", "refused 4 sheet 1\n"),
        ("sheet  1 strict 1 0 0\n", "refused 4 sheet 1\n"),
        ("sheet 1 strict 1 0 0 \n", "refused 4 sheet 1\n"),
        (" sheet 1 strict 1 0 0\n", "refused 4 sheet 1\n"),
        ("sheet +1 strict 1 0 0\n", "refused 4 sheet 1\n"),
        ("sheet 00000001 strict 1 0 0\n", "refused 4 sheet 1\n"),
        ("sheet - strict 1 0 0\n", "refused 4 sheet 1\n"),
        ("sheet 0 strict 1 0 0\n", "refused 5 sheet 1\n"),
        ("sheet 4 strict 1 0 0\n", "refused 5 sheet 1\n"),
        ("sheet -1 strict 1 0 0\n", "refused 5 sheet 1\n"),
        ("sheet 1 strict 0 0 0\n", "refused 5 sheet 1\n"),
        ("sheet 9 strict x 0 0\n", "refused 4 sheet 1\n"),
        ("sheet 1 strict 1 0 0\npiece 1 0\n", "refused 4 sheet 2\n"),
        (
            "sheet 1 strict 1 0 0\npiece 1 0 0 0\n",
            "refused 4 sheet 2\n",
        ),
        (
            "sheet 1 strict 1 0 0\npiece -1 0 0\n",
            "refused 5 sheet 2\n",
        ),
        (
            "sheet 1 strict 1 0 0\npiece 1000001 0 0\n",
            "refused 5 sheet 2\n",
        ),
        ("sheet 1 strict 1 0 0\npiece 1 1 0\n", "refused 5 sheet 2\n"),
        (
            "sheet 1 strict 1 0 0\npiece 1 -1000001 0\n",
            "refused 5 sheet 2\n",
        ),
        (
            "sheet 1 strict 1 0 0\npiece 1 0 1000001\n",
            "refused 5 sheet 2\n",
        ),
        (
            "sheet 1 strict 2 1 0\npiece 1 0 0\npiece 1 0 0\nbefore 0 0 0 0\n",
            "refused 5 sheet 4\n",
        ),
        (
            "sheet 1 strict 2 1 0\npiece 1 0 0\npiece 1 0 0\nbefore 0 2 0 0\n",
            "refused 5 sheet 4\n",
        ),
        (
            "sheet 1 strict 2 1 0\npiece 1 0 0\npiece 1 0 0\nbefore 0 1 1 0\n",
            "refused 5 sheet 4\n",
        ),
        (
            "sheet 1 strict 2 1 0\npiece 1 0 0\npiece 1 0 0\nbefore 0 1 0 1000001\n",
            "refused 5 sheet 4\n",
        ),
        (
            "sheet 1 strict 2 1 0\npiece 1 0 0\npiece 1 0 0\nbefore 0 1 0\n",
            "refused 4 sheet 4\n",
        ),
        (
            "sheet 1 strict 1 0 1\npiece 1 0 0\nwall \n",
            "refused 4 sheet 3\n",
        ),
        (
            "sheet 1 strict 1 0 1\npiece 1 0 0\nwall #x\n",
            "refused 4 sheet 3\n",
        ),
        (
            "sheet 1 strict 1 0 1\npiece 1 5 4\nwall x\n",
            "refused 5 sheet 2\n",
        ),
        (
            "sheet 1 strict 2 1 0\npiece 1 0 0\npiece 1 0 0\nbefore 0 1 0 0",
            "refused 2 sheet 4\n",
        ),
        (
            "sheet 1 strict 2 1 0\npiece 1 0 0\npiece 1 0 0\n",
            "refused 3 sheet 4\n",
        ),
        (
            "sheet 1 strict 2 1 0\npiece 1 0 0\npiece 1 0 0\nwall #\n",
            "refused 4 sheet 4\n",
        ),
        (
            "sheet 1 strict 2 1 0\npiece 1 0 0\npiece 1 0 0\nbefore -1 1 0 0\n",
            "refused 5 sheet 4\n",
        ),
        ("sheet 1 strict 1 0 1\npiece 1 0 0\n", "refused 3 sheet 3\n"),
        (
            "sheet 1 strict 1 0 1\npiece 1 0 0\nwall #",
            "refused 2 sheet 3\n",
        ),
        (
            "sheet 1 strict 1 0 1\npiece 1 0 0\nwall\x1f#\n",
            "refused 2 sheet 3\n",
        ),
        (
            "sheet 1 strict 1 0 1\npiece 1 0 0\nwall ~\n",
            "refused 4 sheet 3\n",
        ),
        (
            "sheet 1 strict 1 0 1\npiece 1 0 0\nwall # #\n",
            "refused 4 sheet 3\n",
        ),
    ];

    // Texts that are good, with their canonical form.
    const GOOD: [(&str, &str); 4] = [
        (SAMPLE, SAMPLE),
        (
            "sheet 01 nonstrict 1 00 0\npiece 0000007 -0 000\n",
            "sheet 1 nonstrict 1 0 0\npiece 7 0 0\n",
        ),
        (
            "sheet 1 strict 1 0 0\npiece 1000000 -1000000 1000000\n",
            "sheet 1 strict 1 0 0\npiece 1000000 -1000000 1000000\n",
        ),
        (
            "sheet 3 strict 1 0 0\npiece 1 2 3 -4 4 -5 5 -6 6\n",
            "sheet 3 strict 1 0 0\npiece 1 2 3 -4 4 -5 5 -6 6\n",
        ),
    ];

    fn replies(rt: &impl Abort, heap: Global, text: &[u8], want: &str) -> Result<(), Fail> {
        let got = reply(heap, text)?;
        assert_eq!(rt; got.as_str(), want);
        Ok(())
    }

    #[test]
    fn refuses(rt: HostRuntime) -> Result<(), Fail> {
        for (text, want) in REFUSED {
            replies(&rt, rt.alloc(), text.as_bytes(), want)?;
        }
        Ok(())
    }

    #[test]
    fn formats(rt: HostRuntime) -> Result<(), Fail> {
        for (text, want) in GOOD {
            replies(&rt, rt.alloc(), text.as_bytes(), want)?;
        }
        Ok(())
    }

    // A sheet on one axis with so many pieces, orders and rows of so many cells.
    fn sheet_of(
        heap: Global,
        pieces: u8,
        orders: u8,
        rows: u8,
        cells: u8,
    ) -> Result<String, AllocError> {
        let mut text = format!(in heap; "sheet 1 strict {pieces} {orders} {rows}\n")?;
        for _ in 0..pieces {
            text.push_str("piece 1 0 0\n")?;
        }
        for _ in 0..orders {
            text.push_str("before 0 1 0 0\n")?;
        }
        for _ in 0..rows {
            text.push_str("wall ")?;
            for _ in 0..cells {
                text.push_str("#")?;
            }
            text.push_str("\n")?;
        }
        Ok(text)
    }

    #[test]
    fn counts(rt: HostRuntime) -> Result<(), Fail> {
        let heap = rt.alloc();
        for (pieces, orders, rows, cells) in [(24, 32, 64, 64), (2, 0, 0, 0), (1, 0, 1, 1)] {
            let text = sheet_of(heap, pieces, orders, rows, cells)?;
            replies(&rt, heap, text.as_bytes(), text.as_str())?;
        }
        for (pieces, orders, rows) in [(25, 0, 0), (24, 33, 0), (24, 0, 65)] {
            let text = sheet_of(heap, pieces, orders, rows, 1)?;
            replies(&rt, heap, text.as_bytes(), "refused 5 sheet 1\n")?;
        }
        for (cells, want) in [
            (65, "refused 5 sheet 3\n"),
            (91, "refused 5 sheet 3\n"),
            (92, "refused 2 sheet 3\n"),
        ] {
            let text = sheet_of(heap, 1, 0, 1, cells)?;
            replies(&rt, heap, text.as_bytes(), want)?;
        }
        Ok(())
    }

    #[test]
    fn sizes(rt: HostRuntime) -> Result<(), Fail> {
        let heap = rt.alloc();
        let longest = vec![in heap; b'x'; 16_384]?;
        replies(&rt, heap, &longest, "refused 2 sheet 1\n")?;
        let longer = vec![in heap; b'x'; 16_385]?;
        replies(&rt, heap, &longer, "refused 1 sheet 0\n")
    }

    const JUNK: Span = Span {
        lower: 7,
        upper: -7,
    };

    const LENT: Piece = Piece {
        lengths: [9, 9, 9],
        first: Region { spans: [JUNK; 3] },
        present: Region { spans: [JUNK; 3] },
    };

    fn no_walls() -> WallMap {
        ArrayVec::new(ArrayVec::new(Cell::Open))
    }

    fn no_orders() -> Orders {
        ArrayVec::new(Order {
            before: 0,
            after: 0,
            axis: 0,
            gap: 0,
        })
    }

    #[test]
    fn lends(rt: HostRuntime) -> Result<(), Fail> {
        let mut records = [LENT; 4];
        let mut walls = no_walls();
        let mut orders = no_orders();
        match read_sheet(SAMPLE.as_bytes(), &mut records, &mut walls, &mut orders) {
            Ok(contents) => {
                assert_eq!(rt; contents.axes, 2);
                assert_eq!(rt; contents.pieces, 3);
                assert_eq!(rt; contents.orders, 1);
                assert_eq!(rt; contents.rows, 2);
            }
            Err(_) => return Err(Fail::new("refused")),
        }
        let second = records[1];
        assert_eq!(rt; second.lengths, [2, 1, 9]);
        let spans = [
            Span { lower: 0, upper: 2 },
            Span { lower: 0, upper: 1 },
            Span {
                lower: 7,
                upper: -7,
            },
        ];
        assert_eq!(rt; second.first.spans, spans);
        assert_eq!(rt; second.present.spans, spans);
        assert_eq!(rt; records[3].lengths, LENT.lengths);
        assert_eq!(rt; walls.len(), 2);
        assert_eq!(rt; orders.len(), 1);
        for order in orders.as_slice() {
            assert_eq!(rt; order.before, 0);
            assert_eq!(rt; order.after, 2);
            assert_eq!(rt; order.axis, 0);
            assert_eq!(rt; order.gap, 0);
        }
        let mut found = 0;
        for (r, row) in walls.as_slice().iter().enumerate() {
            assert_eq!(rt; row.len(), 4);
            for (c, cell) in row.as_slice().iter().enumerate() {
                if let Cell::Wall = cell {
                    assert_eq!(rt; (r, c), (1, 3));
                    found = 1;
                }
            }
        }
        assert_eq!(rt; found, 1);
        Ok(())
    }

    #[test]
    fn keeps_lent_memory(rt: HostRuntime) -> Result<(), Fail> {
        let mut records = [LENT; 2];
        let mut walls = no_walls();
        let mut orders = no_orders();
        match read_sheet(SAMPLE.as_bytes(), &mut records, &mut walls, &mut orders) {
            Err(Refusal::MemoryShort { .. }) => {}
            _ => return Err(Fail::new("two records are too few")),
        }
        assert_eq!(rt; records[0].lengths, LENT.lengths);
        assert_eq!(rt; walls.len(), 0);
        assert_eq!(rt; orders.len(), 0);
        Ok(())
    }
}
