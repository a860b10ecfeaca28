// Walks through the example world, then deals items in drawn order into an inventory; prints each step.
#![tactic(auto)]

mod fault;
mod item;
mod names;
mod number;
mod request;
mod row;
mod tables;
mod tour;

ghost use Rattle.std.specs.Prelude.{◌≡◌, ◌≤◌, [], length, OnOk, vec_len};
ghost use Rattle.playthrough.specs.Dealing.{after_dealing};

use draw::{DrawSource, Drawn, Tape, deal};
use examples::world_a;
use inventory::{Family, Inventory, WorldInventory};
use item::Item;
use request::{Chosen, Numbers, Request};
use std::io;
use std::io::Read;
use tables::print_tables;
use tour::print_tour;

fn print_standing(rt: &HostRuntime, held: &WorldInventory, item: Item) -> io::Result<()> {
    let number = u16::from(item.number);
    match item.family {
        Family::Key if held.left().contains(number) => println!(rt; "held"),
        Family::Key => println!(rt; "not held"),
        Family::Count => println!(rt; "level {}", held.right().left().level(number)),
        Family::Tier => println!(rt; "level {}", held.right().right().level(number)),
    }
}

// Deals every item: the source is drawn from once for each, and none is left.
fn deal_all<S: DrawSource>(
    rt: &HostRuntime,
    source: &mut S,
    items: &mut Vec<Item>,
) -> io::Result<()>
    ensures left { vec_len items.old ≤ 256 → OnOk result (items.new.items ≡ []) }
    ensures draws { vec_len items.old ≤ 256 → OnOk result (S.DrawSource.state source.new ≡ after_dealing S.DrawSource.draws (S.DrawSource.state source.old) (length items.old.items)) }
{
    let mut held = WorldInventory::empty();
    while let Some(Drawn { index, item }) = deal(source, items) {
        held.add(item.family.code(item.number));
        print!(rt; "drew {index} of {}: {item}, ", items.len() + 1)?;
        print_standing(rt, &held, item)?;
    }
    let keys = held.left().count();
    let counts = held.right().left().total();
    let tiers = held.right().right().total();
    println!(rt; "held at the end: keys {keys}, counts {counts}, tiers {tiers}")
}

fn serve(rt: &HostRuntime, request: Request) -> io::Result<()> {
    let Request { source, mut items } = request;
    match source {
        Chosen::Seed(mut seeded) => deal_all(rt, &mut seeded, &mut items),
        Chosen::Tape(Numbers { numbers }) => {
            let mut tape = Tape::new(numbers.as_slice()).unwrap();
            deal_all(rt, &mut tape, &mut items)
        },
    }
}

fn run(rt: &HostRuntime) -> anyhow::Result<()> {
    let world = world_a(rt.alloc())?;
    print_tables(rt, &world)?;
    print_tour(rt, &world)?;
    let mut bytes = Vec::new(rt.alloc());
    rt.stdin().read_to_end(&mut bytes)?;
    match request::read(rt.alloc(), bytes.as_slice()) {
        Ok(request) => serve(rt, request)?,
        Err(fault) => println!(rt; "{fault}")?,
    }
    Ok(())
}

fn main(rt: HostRuntime) -> anyhow::Result<()> {
    run(&rt)
}
