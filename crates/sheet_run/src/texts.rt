#[cfg(test)]
mod tests {
    use sheet::class::Class;
    use sheet::fault::Refusal;
    use sheet::node::{Gate, Node};
    use sheet::parts::{Part, find_part};
    use sheet::sheet::Sheet;
    use sheet::text::Order;
    use std::alloc::{AllocError, Global};
    use std::test::Fail;

    // What loading a text tells: 0 and the number of lines, or the refusal's number and its place.
    fn told(text: &[u8]) -> (u8, usize) {
        match Sheet::load(text) {
            Ok(sheet) => (0, sheet.len()),
            Err(fault) => (fault.refusal.number(), usize::from(fault.place)),
        }
    }

    // A text, and what loading it tells.
    struct Case {
        text: &'static [u8],
        told: (u8, usize),
    }

    const CASES: [Case; 45] = [
        // the text and its names line
        Case {
            text: b"",
            told: (1, 0),
        },
        Case {
            text: b"kind left right",
            told: (1, 0),
        },
        Case {
            text: b"kind left right\ni - -",
            told: (1, 0),
        },
        Case {
            text: b"\n",
            told: (2, 0),
        },
        Case {
            text: b"kind left\n",
            told: (2, 0),
        },
        Case {
            text: b"kind left left\n",
            told: (2, 0),
        },
        Case {
            text: b"kind  left right\n",
            told: (2, 0),
        },
        Case {
            text: b"kind left right \n",
            told: (2, 0),
        },
        Case {
            text: b"kind left right\r\n",
            told: (2, 0),
        },
        Case {
            text: b"kind left right\n",
            told: (0, 0),
        },
        // the six orders of the columns
        Case {
            text: b"kind left right\ni - -\nf 0 -\n",
            told: (0, 2),
        },
        Case {
            text: b"kind right left\ni - -\nf - 0\n",
            told: (0, 2),
        },
        Case {
            text: b"left kind right\n- i -\n0 f -\n",
            told: (0, 2),
        },
        Case {
            text: b"left right kind\n- - i\n0 - f\n",
            told: (0, 2),
        },
        Case {
            text: b"right kind left\n- i -\n- f 0\n",
            told: (0, 2),
        },
        Case {
            text: b"right left kind\n- - i\n- 0 f\n",
            told: (0, 2),
        },
        Case {
            text: b"kind right left\ni - -\nf 0 -\n",
            told: (3, 1),
        },
        // values in their kind's forms
        Case {
            text: b"kind left right\n\n",
            told: (3, 0),
        },
        Case {
            text: b"kind left right\ni -\n",
            told: (3, 0),
        },
        Case {
            text: b"kind left right\ni - - -\n",
            told: (3, 0),
        },
        Case {
            text: b"kind left right\ni  - -\n",
            told: (3, 0),
        },
        Case {
            text: b"kind left right\ni\t- -\n",
            told: (3, 0),
        },
        Case {
            text: b"kind left right\ni - -\r\n",
            told: (3, 0),
        },
        Case {
            text: b"kind left right\ni - 0\n",
            told: (3, 0),
        },
        Case {
            text: b"kind left right\ni - -\nn - -\n",
            told: (3, 1),
        },
        Case {
            text: b"kind left right\ni - -\nn 0 0\n",
            told: (3, 1),
        },
        Case {
            text: b"kind left right\ni - -\nn 00 -\n",
            told: (3, 1),
        },
        Case {
            text: b"kind left right\ni - -\nz - -\n",
            told: (3, 1),
        },
        Case {
            text: b"kind left right\ni - -\nii - -\n",
            told: (3, 1),
        },
        Case {
            text: b"kind left right\nf 0640 -\n",
            told: (3, 0),
        },
        // gates in order, then names of wires and belts
        Case {
            text: b"kind left right\nn 0 -\n",
            told: (5, 0),
        },
        Case {
            text: b"kind left right\ni - -\na 0 2\ni - -\n",
            told: (5, 1),
        },
        Case {
            text: b"kind left right\nf 0 -\n",
            told: (0, 1),
        },
        Case {
            text: b"kind left right\nf 1 -\n",
            told: (6, 0),
        },
        Case {
            text: b"kind left right\ni - -\nr 0 -\n",
            told: (6, 1),
        },
        Case {
            text: b"kind left right\ni - -\nh 0 -\n",
            told: (6, 1),
        },
        Case {
            text: b"kind left right\nr 0 -\nh 0 -\nb 0 3\n",
            told: (6, 2),
        },
        Case {
            text: b"kind left right\nr 0 -\nh 0 -\nb 0 2\n",
            told: (6, 2),
        },
        // the parts of belts
        Case {
            text: b"kind left right\ni - -\nb 0 0\nh 0 -\n",
            told: (7, 1),
        },
        Case {
            text: b"kind left right\ni - -\nb 0 0\nr 0 -\n",
            told: (7, 1),
        },
        // the first refusal counts: values, sizes and order line by line, then names, then belts
        Case {
            text: b"kind left right\nn 5 -\ni - 7\n",
            told: (5, 0),
        },
        Case {
            text: b"kind left right\ni - 7\nn 5 -\n",
            told: (3, 0),
        },
        Case {
            text: b"kind left right\ni - -\nb 0 0\nf 9 -\n",
            told: (6, 2),
        },
        Case {
            text: b"kind left right\nb 9 9\nf 9 -\n",
            told: (6, 0),
        },
        Case {
            text: b"kind left right\nf 9 -\nn 9 -\n",
            told: (5, 1),
        },
    ];

    #[test]
    fn table(rt: HostRuntime) {
        for case in &CASES {
            assert_eq!(rt; told(case.text), case.told);
        }
    }

    // A text with the usual names line, then the same line again and again, then another text.
    fn repeated(heap: Global, line: &str, times: u16, rest: &str) -> Result<String, AllocError> {
        let mut text = String::from_str(heap, "kind left right\n")?;
        for _ in 0..times {
            text.push_str(line)?;
        }
        text.push_str(rest)?;
        Ok(text)
    }

    // So many belts, each with its room and its item line.
    fn belts(heap: Global, n: u16) -> Result<String, AllocError> {
        let mut text = String::from_str(heap, "kind left right\ni - -\n")?;
        for b in 0..n {
            let lines = format!(in heap; "r {b} -\nh {b} -\nb 0 0\n")?;
            text.push_str(lines.as_str())?;
        }
        Ok(text)
    }

    #[test]
    fn bytes(rt: HostRuntime) -> Result<(), Fail> {
        let heap = rt.alloc();
        let full = repeated(heap, "i", 8175, "\n")?;
        assert_eq!(rt; full.len(), 8192);
        assert_eq!(rt; told(full.as_bytes()), (3, 0));
        let over = repeated(heap, "i", 8176, "\n")?;
        assert_eq!(rt; told(over.as_bytes()), (1, 0));
        Ok(())
    }

    #[test]
    fn lines(rt: HostRuntime) -> Result<(), Fail> {
        let heap = rt.alloc();
        assert_eq!(rt;
            told(repeated(heap, "0 - -\n", 640, "")?.as_bytes()),
            (0, 640)
        );
        assert_eq!(rt;
            told(repeated(heap, "0 - -\n", 641, "")?.as_bytes()),
            (4, 640)
        );
        assert_eq!(rt;
            told(repeated(heap, "0 - -\n", 639, "f 639 -\n")?.as_bytes()),
            (0, 640)
        );
        assert_eq!(rt;
            told(repeated(heap, "0 - -\n", 638, "f 639 -\n")?.as_bytes()),
            (6, 638)
        );
        assert_eq!(rt;
            told(repeated(heap, "0 - -\n", 639, "f 640 -\n")?.as_bytes()),
            (3, 639)
        );
        Ok(())
    }

    #[test]
    fn belts_and_free_wires(rt: HostRuntime) -> Result<(), Fail> {
        let heap = rt.alloc();
        assert_eq!(rt; told(belts(heap, 32)?.as_bytes()), (0, 97));
        assert_eq!(rt; told(belts(heap, 33)?.as_bytes()), (4, 99));
        assert_eq!(rt;
            told(repeated(heap, "i - -\n", 128, "")?.as_bytes()),
            (0, 128)
        );
        assert_eq!(rt;
            told(repeated(heap, "i - -\n", 129, "")?.as_bytes()),
            (4, 128)
        );
        Ok(())
    }

    #[test]
    fn reading_calls(rt: HostRuntime) -> Result<(), Fail> {
        let none = Sheet::unfilled();
        assert_eq!(rt; none.len(), 0);
        assert!(rt; none.node(0).is_none());
        let text = b"kind left right\ni - -\nf 0 -\nr 0 -\nh 0 -\nd 0 1\nb 0 6\nx 0 1\n1 - -\n";
        let sheet = Sheet::load(text)?;
        assert_eq!(rt; (sheet.len(), sheet.belts()), (8, 1));
        assert_eq!(rt;
            (sheet.sensors(), sheet.flops(), sheet.free_wires()),
            (1, 1, 5)
        );
        assert!(rt; sheet.node(7).is_some());
        assert!(rt; sheet.node(8).is_none());
        assert_eq!(rt; sheet.node(5), Some(Node::Belt { offer: 0, take: 6 }));
        assert_eq!(rt; sheet.node(7), Some(Node::Gate(Gate::Constant(true))));
        assert!(rt; sheet.is_wire(6) && !sheet.is_wire(5) && !sheet.is_wire(8));
        assert!(rt;
            sheet
                .node(0)
                .is_some_and(|node| node.is_of(Class::Sensor) && node.is_free())
        );
        assert_eq!(rt; find_part(Part::Bit, 0, sheet.nodes(), 0), Some(4));
        assert_eq!(rt; find_part(Part::Item, 0, sheet.nodes(), 4), None);
        Ok(())
    }

    // Refusals compare and print, and orders of the columns give their names.
    #[test]
    fn refusals(rt: HostRuntime) -> Result<(), Fail> {
        let heap = rt.alloc();
        let fault = Sheet::load(b"kind left right\nx 0 1\n").err();
        assert_eq!(rt; fault, Some(Refusal::GateOutOfOrder.at(0)));
        assert_eq!(rt; Sheet::load(b"").err(), Some(Refusal::UnfitText.into()));
        assert!(rt; Refusal::TooMany.at(3) != Refusal::TooMany.at(4));
        assert_eq!(rt;
            Refusal::UnfitBelt.at(12).to_string(heap)?.as_str(),
            "refused 7 at 12"
        );
        assert_eq!(rt; format!(in heap; "{:?}", Part::Room)?.as_str(), "Room");
        assert_eq!(rt; Order::LeftRightKind.names(), b"left right kind".as_slice());
        Ok(())
    }
}
