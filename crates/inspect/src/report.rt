ghost use Rattle.std.specs.Prelude.{◌≡◌, ◌+◌, drop};
ghost use Rattle.sheet.specs.Parts.{is_part};
ghost use Rattle.sheet.specs.Rules.{lowest};
ghost use Rattle.sheet.specs.declared.parts.Part.TheVariants as Of;

use crate::explain::{broken_rule, names_a_line};
use sheet::class::Class;
use sheet::fault::Fault;
use sheet::node::Node;
use sheet::parts::{Part, find_part};
use sheet::sheet::Sheet;
use std::fmt::{self, Display};

// How many bit lines a belt may have.
const MOST_BITS: usize = 4;

// A line number, or a dash where there is none.
#[derive(Clone, Copy)]
struct Place(Option<usize>);

impl Display for Place {
    fn fmt<W: fmt::Write>(&self, f: &mut fmt::Formatter<W>) -> fmt::Result {
        match self.0 {
            Some(line) => line.fmt(f),
            None => f.pad("-"),
        }
    }
}

// A belt of a sheet with these nodes: its number, its line, and the wires that it names.
#[derive(Clone, Copy)]
struct Belt<'a> {
    nodes: &'a [Node],
    number: usize,
    line: usize,
    offer: u16,
    take: u16,
}

impl Belt<'_> {
    // The first line that is such a part of the belt.
    fn part(&self, part: Part) -> Option<usize>
        ensures { result ≡ lowest (λ _ n. is_part part self.now.number n) 0 self.now.nodes.now }
    {
        find_part(part, self.number, self.nodes, 0)
    }

    // The first bit line of the belt behind a line.
    fn bit_behind(&self, line: usize) -> Option<usize>
        ensures { result ≡ lowest (λ _ n. is_part Of.Bit self.now.number n) (line + 1)
            (drop (line + 1) self.now.nodes.now) }
    {
        find_part(Part::Bit, self.number, self.nodes, line.checked_add(1)?)
    }
}

// The belt's row: its bit lines stand last, bit 0 first, or a dash where there is none.
impl Display for Belt<'_> {
    fn fmt<W: fmt::Write>(&self, f: &mut fmt::Formatter<W>) -> fmt::Result {
        let Belt {
            number,
            line,
            offer,
            take,
            ..
        } = *self;
        let room = Place(self.part(Part::Room));
        let item = Place(self.part(Part::Item));
        let mut bit = self.part(Part::Bit);
        let first = Place(bit);
        write!(
            f,
            "{number:>4} {line:>5} {offer:>6} {take:>5} {room:>5} {item:>5}  {first}"
        )?;
        for _ in 1..MOST_BITS {
            bit = bit.and_then(|last| self.bit_behind(last));
            if let Some(next) = bit {
                write!(f, " {next}")?;
            }
        }
        Ok(())
    }
}

fn print_counts(rt: &HostRuntime, sheet: &Sheet) -> anyhow::Result<()> {
    let not = sheet.count(Class::Not);
    let and = sheet.count(Class::And);
    let or = sheet.count(Class::Or);
    let xor = sheet.count(Class::Xor);
    let low = sheet.count(Class::Low);
    let high = sheet.count(Class::High);
    println!(rt; "lines      {}", sheet.len())?;
    println!(rt; "sensors    {}", sheet.sensors())?;
    println!(rt; "flops      {}", sheet.flops())?;
    println!(rt; "free wires {}", sheet.free_wires())?;
    println!(rt;
        "gates      {not} NOT, {and} AND, {or} OR, {xor} XOR, {low} constant low, {high} constant high"
    )?;
    println!(rt; "belts      {}", sheet.belts())?;
    Ok(())
}

// What a sheet holds: its counts, and a row for each belt.
pub(crate) fn print_sheet(rt: &HostRuntime, sheet: &Sheet) -> anyhow::Result<()> {
    print_counts(rt, sheet)?;
    println!(rt; "\nbelt  line  offer  take  room  item  bits")?;
    let nodes = sheet.nodes();
    let belts = nodes.iter().enumerate().filter_map(|(line, node)| node
        .offer_and_take()
        .map(|wires| (line, wires)));
    for (number, (line, (offer, take))) in belts.enumerate() {
        let belt = Belt {
            nodes,
            number,
            line,
            offer,
            take,
        };
        println!(rt; "{belt}")?;
    }
    Ok(())
}

// The refusal line, and a line that says which rule is broken and where.
pub(crate) fn print_refusal(rt: &HostRuntime, fault: Fault) -> anyhow::Result<()> {
    println!(rt; "{fault}")?;
    let rule = broken_rule(fault.refusal);
    let place = fault.place;
    if names_a_line(fault.refusal) {
        let row = u32::from(place) + 2;
        println!(rt; "value line {place}, which is line {row} of the text, breaks a rule: {rule}")?;
    } else {
        println!(rt; "the text breaks a rule: {rule}")?;
    }
    Ok(())
}
