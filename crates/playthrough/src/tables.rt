// Prints a world's tables.
use crate::names::{kind_name, place_name, region_name};
use crate::row::print_row;
use model::RuleWord;
use std::{fmt, io};
use world::World;

// A word of a rule, as it is printed.
#[derive(Clone, Copy)]
struct Word(RuleWord);

impl fmt::Display for Word {
    fn fmt<W: fmt::Write>(&self, f: &mut fmt::Formatter<W>) -> fmt::Result {
        match self.0 {
            RuleWord::Free => write!(f, "free"),
            RuleWord::Need { code, amount: 1 } => write!(f, "{}", kind_name(code)),
            RuleWord::Need { code, amount } => write!(f, "{}:{amount}", kind_name(code)),
            RuleWord::And => write!(f, "and"),
            RuleWord::Or => write!(f, "or"),
        }
    }
}

fn print_rule<L: fmt::Display + Drop>(
    rt: &HostRuntime,
    label: L,
    rule: &[RuleWord],
) -> io::Result<()> {
    print_row(rt, label, rule.iter().map(|word| Word(*word)))
}

fn print_gates(rt: &HostRuntime, world: &World) -> io::Result<()> {
    for gate in world.gates() {
        let near = region_name(gate.near);
        let far = region_name(gate.far);
        print_rule(rt, format_args!("gate {near} {far}"), world.rule(gate.rule))?;
    }
    Ok(())
}

fn print_places(rt: &HostRuntime, world: &World) -> io::Result<()> {
    for (number, place) in world.places().iter().enumerate() {
        let name = place_name(number);
        let region = region_name(place.region);
        print_rule(
            rt,
            format_args!("place {name} in {region}"),
            world.rule(place.rule),
        )?;
    }
    Ok(())
}

fn print_items(rt: &HostRuntime, label: &str, codes: &[u16]) -> io::Result<()> {
    print_row(rt, label, codes.iter().map(|code| kind_name(*code)))
}

pub fn print_tables(rt: &HostRuntime, world: &World) -> io::Result<()> {
    let regions = world.region_count();
    let kinds = world.kinds().len();
    let words = world.word_count();
    println!(rt; "world: {regions} regions, {kinds} kinds, {words} rule words")?;
    print_gates(rt, world)?;
    print_places(rt, world)?;
    print_items(rt, "pool", world.pool())?;
    print_items(rt, "stock", world.stock())?;
    print_rule(rt, "goal", world.rule(world.goal()))
}
