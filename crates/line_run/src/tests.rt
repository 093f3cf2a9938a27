use banks::bank::Bank;
use banks::beside::Beside;
use banks::rack::Rack;
use banks::single::Single;
use belts::row::PackedRow;
use belts::series::Series;
use line::line::Line;
use runs::calls::{Answer, Call, MOST_EVENTS, Report};
use runs::drive::run;
use sheet::fault::{Fault, Refusal};
use sheet::sheet::Sheet;

// The board of three belts.
const THREE: &[u8] =
    b"kind left right\ni - -\ni - -\nr 0 -\nr 1 -\nr 2 -\nh 0 -\nh 1 -\nh 2 -\na 0 4\na 0 2\na 1 7\na 1 6\nb 8 3\nb 5 10\nb 9 11\n";

// Two belts that nothing enters; the second has a bit.
const SECOND: &[u8] = b"kind left right\nr 0 -\nh 0 -\nr 1 -\nh 1 -\nd 1 5\n0 - -\nb 5 5\nb 5 5\n";

// The refusal of mounting a sheet on a new line over a bank, if it is refused.
fn refused<B: Bank + Drop>(bank: B, sheet: &Sheet) -> Option<Fault> {
    Line::new(bank).mount(sheet).err()
}

#[test]
fn mounting(rt: HostRuntime) -> anyhow::Result<()> {
    let three = Sheet::load(THREE)?;
    let second = Sheet::load(SECOND)?;
    assert_eq!(rt;
        refused(Rack::new(2, 1, 0), &three),
        Some(Refusal::BeltsDiffer.at(0))
    );
    assert_eq!(rt; refused(Rack::new(3, 1, 0), &three), None);
    assert_eq!(rt;
        refused(Rack::new(4, 1, 0), &three),
        Some(Refusal::BeltsDiffer.at(0))
    );
    assert_eq!(rt;
        refused(Rack::new(2, 1, 0), &second),
        Some(Refusal::NarrowBelt.at(1))
    );
    assert_eq!(rt;
        refused(Beside::new(Rack::new(1, 1, 0), Rack::new(1, 1, 1)), &second),
        None
    );
    let mut laden = Rack::new(3, 1, 0);
    laden.put(1, 0);
    laden.put(2, 0);
    assert_eq!(rt; refused(laden, &three), Some(Refusal::LadenBelt.at(1)));
    Ok(())
}

#[test]
fn refused_ticks(rt: HostRuntime) -> anyhow::Result<()> {
    let sheet = Sheet::load(THREE)?;
    let mut line = Line::new(Rack::new(3, 16, 0));
    let mut events = [7; 6];
    assert_eq!(rt;
        line.tick(&[1, 1], &mut events),
        Err(Refusal::NoSheet.at(0))
    );
    assert_eq!(rt; line.clear(), Err(Refusal::NoSheet.at(0)));
    assert_eq!(rt; line.count(0), None);
    line.mount(&sheet)?;
    assert_eq!(rt;
        line.tick(&[1], &mut events),
        Err(Refusal::WrongSensors.at(0))
    );
    assert_eq!(rt;
        line.tick(&[1, 1, 1], &mut events),
        Err(Refusal::WrongSensors.at(0))
    );
    assert_eq!(rt;
        line.tick(&[1, 2], &mut events),
        Err(Refusal::WrongSensors.at(0))
    );
    let mut short = [7; 5];
    assert_eq!(rt;
        line.tick(&[1, 1], &mut short),
        Err(Refusal::ShortEvents.at(0))
    );
    assert_eq!(rt; (events, short), ([7; 6], [7; 5]));
    assert_eq!(rt; line.count(0), Some(0));
    assert_eq!(rt; line.tick(&[1, 1], &mut events), Ok((2, 0)));
    assert_eq!(rt; events, [1, 0, 0, 0, 1, 0]);
    Ok(())
}

#[test]
fn ticks_and_counts(rt: HostRuntime) -> anyhow::Result<()> {
    let sheet = Sheet::load(THREE)?;
    let mut line = Line::new(Rack::new(3, 16, 0));
    line.mount(&sheet)?;
    let mut events = [7; 7];
    assert_eq!(rt; line.tick(&[1, 1], &mut events), Ok((2, 0)));
    assert_eq!(rt; line.tick(&[1, 1], &mut events), Ok((3, 1)));
    assert_eq!(rt; events, [1, 1, 1, 0, 1, 0, 7]);
    assert_eq!(rt;
        (line.count(1), line.count(2), line.count(3)),
        (Some(1), Some(2), None)
    );
    assert_eq!(rt; line.mount(&sheet), Err(Refusal::LadenBelt.at(0)));
    assert_eq!(rt;
        line.mount(&Sheet::load(SECOND)?),
        Err(Refusal::BeltsDiffer.at(0))
    );
    assert_eq!(rt; line.count(2), Some(2));
    assert_eq!(rt; line.clear(), Ok(()));
    assert_eq!(rt; line.count(2), Some(0));
    assert_eq!(rt; line.mount(&sheet), Ok(()));
    Ok(())
}

// A copy of a line ticks by itself, and a line prints with its bank.
#[test]
fn copies_and_prints(rt: HostRuntime) -> anyhow::Result<()> {
    let sheet = Sheet::load(THREE)?;
    let two = Series::new(PackedRow::new(8, 0), PackedRow::new(8, 0));
    let mut line = Line::new(Beside::new(Single::new(two), Rack::new(2, 16, 0)));
    line.mount(&sheet)?;
    let mut copy = line.clone()?;
    let mut events = [7; 6];
    assert_eq!(rt; copy.tick(&[1, 1], &mut events), Ok((2, 0)));
    assert_eq!(rt; (copy.count(0), line.count(0)), (Some(1), Some(0)));
    let bare = Line::new(Single::new(PackedRow::new(2, 4)));
    assert_eq!(rt;
        format!(in rt.alloc(); "{bare:?}")?.as_str(),
        "Line { bank: Single { belt: PackedRow { bits: 0, count: 0, places: 2, width: 4 } }, board: None }"
    );
    Ok(())
}

// Both sensors high, with event memory for three belts.
const TICK: Call = Call::Tick {
    sensors: &[1, 1],
    memory: 6,
};

// The calls of a run, on a line over three empty belts.
const CALLS: [Call; 9] = [
    TICK,
    Call::Mount(0),
    TICK,
    Call::Tick {
        sensors: &[1, 1],
        memory: 5,
    },
    TICK,
    Call::Count(2),
    Call::Clear,
    Call::Count(2),
    Call::Mount(1),
];

#[test]
fn a_run(rt: HostRuntime) -> anyhow::Result<()> {
    let sheets = [Sheet::load(THREE)?];
    let answers = [
        Answer::Refused(Refusal::NoSheet.at(0)),
        Answer::Done,
        Answer::Ticked(2, 0),
        Answer::Refused(Refusal::ShortEvents.at(0)),
        Answer::Ticked(3, 1),
        Answer::Counted(Some(2)),
        Answer::Done,
        Answer::Counted(Some(0)),
        Answer::Refused(Refusal::BeltsDiffer.at(0)),
    ];
    let mut log = [Report {
        answer: Answer::Done,
        bytes: [7; MOST_EVENTS],
    }; 10];
    let (_line, made) = run(Rack::new(3, 16, 0), &sheets, &CALLS, &mut log);
    assert_eq!(rt; made, 9);
    for (report, answer) in log.iter().zip(&answers) {
        assert_eq!(rt; report.answer, *answer);
    }
    assert!(rt; log[4].bytes.starts_with(&[1, 1, 1, 0, 1, 0, 0]));
    assert_eq!(rt; log[9].bytes, [7; MOST_EVENTS]);
    Ok(())
}
