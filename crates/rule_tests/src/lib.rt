//! Tests of the rules and of the questions, on examples.

#![tactic(auto)]

#[cfg(test)]
mod tests {
    use orders::OrderRule;
    use overlap::Overlap;
    use room::array_vec::ArrayVec;
    use room::orders::Order;
    use room::piece::Piece;
    use room::point::Point;
    use room::refusal::Refusal;
    use room::region::Region;
    use room::span::Span;
    use room::walls::Cell;
    use rule::both::Both;
    use rule::interface::Rule;
    use rule::questions::{Question, suits};
    use std::process::Abort;
    use strip::Strip;
    use walls::WallRule;

    // the number of a refusal, 0 for an answer
    fn number<T: Drop>(answer: Result<T, Refusal>) -> u8 {
        match answer {
            Ok(_) => 0,
            Err(refusal) => refusal.tell().number,
        }
    }

    fn span(lower: i32, upper: i32) -> Span {
        Span { lower, upper }
    }

    fn piece(lengths: [i32; 3], lower: [i32; 3], upper: [i32; 3]) -> Piece {
        let bounds = Region {
            spans: [
                span(lower[0], upper[0]),
                span(lower[1], upper[1]),
                span(lower[2], upper[2]),
            ],
        };
        Piece {
            lengths,
            first: bounds,
            present: bounds,
        }
    }

    // a piece of one axis
    fn bar(length: i32, lower: i32, upper: i32) -> Piece {
        piece([length, -9, -9], [lower, 9, 9], [upper, -9, -9])
    }

    fn point(x: i32, y: i32, z: i32) -> Point {
        Point { origins: [x, y, z] }
    }

    fn asked(axes: usize, pieces: usize, records: &[Piece], piece: usize) -> Question<'_> {
        Question {
            axes,
            pieces,
            records,
            piece,
        }
    }

    // whether an origin of piece 0 on one axis is shut
    fn is_shut<R: Rule>(rule: &R, records: &[Piece], x: i32) -> Result<bool, Refusal> {
        let answer = asked(1, records.len(), records, 0).cover(rule, &point(x, 0, 0))?;
        Ok(answer.is_some())
    }

    // whether just these origins of piece 0 within 0..=12 are shut
    fn shut_just<R: Rule>(rt: &impl Abort, rule: &R, records: &[Piece], want: &[u8; 13]) {
        for x in 0..13 {
            let letter = match is_shut(rule, records, x as i32) {
                Ok(true) => b'#',
                Ok(false) => b'.',
                Err(_) => b'!',
            };
            assert_eq!(rt; letter, want[x]);
        }
    }

    #[test]
    fn overlaps(rt: HostRuntime) {
        let strict = Overlap::strict();
        let nonstrict = Overlap::nonstrict();
        shut_just(
            &rt,
            &strict,
            &[bar(3, 0, 12), bar(3, 5, 5)],
            b"...#####.....",
        );
        shut_just(
            &rt,
            &strict,
            &[bar(3, 0, 12), bar(3, 5, 6)],
            b"....####.....",
        );
        shut_just(
            &rt,
            &strict,
            &[bar(3, 0, 12), bar(3, 5, 10)],
            b".............",
        );
        shut_just(
            &rt,
            &strict,
            &[bar(0, 0, 12), bar(3, 5, 5)],
            b"......##.....",
        );
        shut_just(
            &rt,
            &nonstrict,
            &[bar(0, 0, 12), bar(3, 5, 5)],
            b".............",
        );
        shut_just(
            &rt,
            &nonstrict,
            &[bar(3, 0, 12), bar(3, 5, 5)],
            b"...#####.....",
        );
    }

    #[test]
    fn strips_in_a_pair(rt: HostRuntime) {
        let both = Both::new(Strip::new(0, 10, 11), Overlap::strict());
        let records = [bar(3, 0, 12), bar(3, 5, 5)];
        shut_just(&rt, &both, &records, b"...#####..##.");
        assert_eq!(rt; number(suits(&both, 4, 1)), 5);
        assert_eq!(rt; number(asked(1, 2, &records, 0).count(&both)), 0);
        if let Ok(boxes) = asked(1, 2, &records, 0).count(&both) {
            assert_eq!(rt; boxes, 2);
        }
        if let Ok(region) = asked(1, 2, &records, 0).listed(&both, 1) {
            assert_eq!(rt; region.spans[0], span(3, 7));
        }
        assert_eq!(rt; number(asked(1, 2, &records, 0).listed(&both, 2)), 11);
        assert_eq!(rt;
            number(asked(1, 2, &records, 0).listed(&both, 999_999_999)),
            11
        );
        assert_eq!(rt;
            number(asked(1, 2, &records, 0).listed(&both, 1_000_000_000)),
            5
        );
    }

    // a piece before, with length 2 and gap 1, and the piece after within 0..6
    #[test]
    fn orders_shut(rt: HostRuntime) {
        let mut rule = OrderRule::new();
        let order = Order {
            before: 0,
            after: 1,
            axis: 0,
            gap: 1,
        };
        assert_eq!(rt; number(rule.add(order)), 0);
        shut_just(&rt, &rule, &[bar(2, 0, 12), bar(1, 0, 6)], b"....#########");
        let turned = Order {
            before: 1,
            after: 0,
            ..order
        };
        let mut rule = OrderRule::new();
        assert_eq!(rt; number(rule.add(turned)), 0);
        shut_just(&rt, &rule, &[bar(1, 0, 12), bar(2, 3, 6)], b"######.......");
    }

    // an entry is looked at before the room for it, and a refused one is not held
    #[test]
    fn orders_refused(rt: HostRuntime) {
        let good = Order {
            before: 0,
            after: 23,
            axis: 2,
            gap: 1_000_000,
        };
        let bad = [
            Order { before: 24, ..good },
            Order { after: 24, ..good },
            Order { axis: 3, ..good },
            Order { gap: -1, ..good },
            Order {
                gap: 1_000_001,
                ..good
            },
            Order { before: 23, ..good },
        ];
        let mut rule = OrderRule::new();
        for order in bad {
            assert_eq!(rt; number(rule.add(order)), 5);
        }
        assert_eq!(rt; number(suits(&rule, 1, 1)), 0);
        assert!(rt; matches!(suits(&rule, 1, 1), Ok(true)));
        for _ in 0..32 {
            assert_eq!(rt; number(rule.add(good)), 0);
        }
        assert_eq!(rt; number(rule.add(good)), 12);
        for order in bad {
            assert_eq!(rt; number(rule.add(order)), 5);
        }
        assert!(rt; matches!(suits(&rule, 3, 24), Ok(true)));
        assert!(rt; matches!(suits(&rule, 2, 24), Ok(false)));
        assert!(rt; matches!(suits(&rule, 3, 23), Ok(false)));
    }

    // whether the answer is a box of these ranges on axes 0 and 1
    fn region_is(answer: Result<Option<Region>, Refusal>, columns: Span, rows: Span) -> bool {
        match answer {
            Ok(Some(region)) => region.spans[0] == columns && region.spans[1] == rows,
            _ => false,
        }
    }

    // a run of walls in column 2, rows 1 to 3; row 0 is shorter than the others
    #[test]
    fn walls_shut(rt: HostRuntime) {
        let mut map = ArrayVec::new(ArrayVec::new(Cell::Open));
        for text in ["..", "..#.", "..#.", "..#", "...."] {
            let mut row = ArrayVec::new(Cell::Open);
            for letter in text.bytes() {
                let cell = if letter == b'#' {
                    Cell::Wall
                } else {
                    Cell::Open
                };
                let _ = row.push(cell);
            }
            let _ = map.push(row);
        }
        let rule = WallRule::new(&map);
        let records = [piece([2, 1, 0], [-9, -9, -9], [9, 9, 9])];
        for (y, row) in [".....", ".##..", ".##..", ".##..", "....."]
            .iter()
            .enumerate()
        {
            for (x, letter) in row.bytes().enumerate() {
                let answer = asked(2, 1, &records, 0).cover(&rule, &point(x as i32, y as i32, 0));
                assert_eq!(rt; number(answer), 0);
                if letter == b'#' {
                    assert!(rt; region_is(answer, span(1, 2), span(1, 3)));
                } else {
                    assert!(rt; matches!(answer, Ok(None)));
                }
            }
        }
        assert!(rt; matches!(asked(2, 1, &records, 0).count(&rule), Ok(3)));
        assert!(rt; matches!(suits(&rule, 1, 1), Ok(false)));
        assert_eq!(rt;
            number(asked(1, 1, &records, 0).cover(&rule, &point(0, 0, 0))),
            13
        );
        let open = WallRule::new(&ArrayVec::new(ArrayVec::new(Cell::Open)));
        assert!(rt; matches!(suits(&open, 1, 1), Ok(true)));
        assert_eq!(rt;
            number(asked(1, 1, &records, 0).cover(&open, &point(0, 0, 0))),
            0
        );
    }

    // each check comes before the next: every line also fails all the checks after its own
    #[test]
    fn questions_refused(rt: HostRuntime) {
        let rule = Strip::new(1, 0, 0);
        let good = bar(1, 0, 6);
        let unfit = bar(1_000_001, 0, 6);
        let far = point(7, 0, 0);
        assert_eq!(rt; number(asked(0, 2, &[unfit], 9).cover(&rule, &far)), 5);
        assert_eq!(rt; number(asked(4, 2, &[unfit], 9).cover(&rule, &far)), 5);
        assert_eq!(rt; number(asked(1, 0, &[unfit], 9).cover(&rule, &far)), 5);
        assert_eq!(rt; number(asked(1, 25, &[unfit], 9).cover(&rule, &far)), 5);
        assert_eq!(rt; number(asked(1, 2, &[unfit], 9).cover(&rule, &far)), 6);
        assert_eq!(rt;
            number(asked(1, 2, &[good, unfit], 9).cover(&rule, &far)),
            7
        );
        assert_eq!(rt;
            number(asked(1, 2, &[good, good, unfit], 9).cover(&rule, &far)),
            13
        );
        let rule = Strip::new(0, 0, 0);
        assert_eq!(rt;
            number(asked(1, 2, &[good, good, unfit], 2).cover(&rule, &far)),
            5
        );
        assert_eq!(rt;
            number(asked(1, 2, &[good, good, unfit], 1).cover(&rule, &far)),
            5
        );
        assert_eq!(rt;
            number(asked(1, 2, &[good, good, unfit], 1).cover(&rule, &point(6, 7, 8))),
            0
        );
        assert_eq!(rt; number(asked(1, 2, &[good, good], 2).count(&rule)), 5);
        assert_eq!(rt; number(suits(&rule, 3, 24)), 0);
        assert_eq!(rt; number(suits(&rule, 3, 25)), 5);
    }

    // present ends must lie inside first ends, on the axes of the board alone
    #[test]
    fn records_looked_at(rt: HostRuntime) {
        let rule = Overlap::strict();
        let mut outside = bar(1, 0, 6);
        outside.present.spans[0].upper = 7;
        assert_eq!(rt; number(asked(1, 1, &[outside], 0).count(&rule)), 7);
        outside.present.spans[0].upper = -1;
        assert_eq!(rt; number(asked(1, 1, &[outside], 0).count(&rule)), 7);
        outside.present.spans[0].upper = 5;
        assert_eq!(rt; number(asked(1, 1, &[outside], 0).count(&rule)), 0);
        assert_eq!(rt; number(asked(2, 1, &[outside], 0).count(&rule)), 7);
    }
}
