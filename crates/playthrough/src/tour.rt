// Walks through a world: what is open, and what a placement gathers, sphere by sphere.
use crate::names::{kind_name, place_name};
use crate::row::print_row;
use explore::{Player, ask_finishable, ask_sphere, ask_whole};
use inventory::WorldInventory;
use scratch::WORK_MARKS;
use std::{fmt, io};
use world::World;

// A place and what lies there, by their names.
#[derive(Clone, Copy)]
struct Gathered {
    place: &'static str,
    item: &'static str,
}

impl fmt::Display for Gathered {
    fn fmt<W: fmt::Write>(&self, f: &mut fmt::Formatter<W>) -> fmt::Result {
        write!(f, "{} ({})", self.place, self.item)
    }
}

// What lies at a place, by the name of its kind.
fn item_name(world: &World, placement: &[Option<u16>], place: usize) -> &'static str {
    placement
        .get(place)
        .copied()
        .flatten()
        .and_then(|item| world.pool().get(usize::from(item)))
        .map_or("nothing", |code| kind_name(*code))
}

// As many marks as a question works with, so that none is refused.
type Marks = [u8; WORK_MARKS];

// A walk through a world, with the marks that its questions are asked with.
#[derive(Drop)]
struct Tour<'a> {
    rt: &'a HostRuntime,
    world: &'a World,
    marks: Marks,
}

impl Tour<'_> {
    // The places that are open, as some question says.
    fn print_open<F: Fn(usize, &mut Marks) -> bool>(
        &mut self,
        label: &str,
        is_open: F,
    ) -> io::Result<()>
        requires { F.IsAlwaysCallable is_open }
    {
        let marks = &mut self.marks;
        let open = (0..self.world.places().len()).filter(|place| is_open(*place, marks));
        print_row(self.rt, label, open.map(place_name))
    }

    fn print_sphere(&mut self, placement: &[Option<u16>], number: u16) -> io::Result<()> {
        let world = self.world;
        let marks = &mut self.marks;
        let is_in = |place: &usize| {
            ask_sphere::<WorldInventory>(world, placement, *place, marks).unwrap() == Some(number)
        };
        let gathered = (0..world.places().len())
            .filter(is_in)
            .map(|place| Gathered {
                place: place_name(place),
                item: item_name(world, placement, place),
            });
        print_row(self.rt, format_args!("sphere {number}"), gathered)
    }

    // The spheres of a placement, and whether it is whole.
    fn print_walk(&mut self, placement: &[Option<u16>]) -> io::Result<()> {
        // No index: the sphere's number is what is printed.
        for number in 1..=3 {
            self.print_sphere(placement, number)?;
        }
        if ask_whole::<WorldInventory>(self.world, placement, &mut self.marks).unwrap() {
            println!(self.rt; "whole: every item of the pool is gathered")
        } else {
            println!(self.rt; "not whole: an item of the pool is never gathered")
        }
    }
}

pub fn print_tour(rt: &HostRuntime, world: &World) -> io::Result<()> {
    let mut tour = Tour {
        rt,
        world,
        marks: [0; WORK_MARKS],
    };
    let player = Player::<WorldInventory>::with_stock(world);
    tour.print_open(
        "open at the start",
        |place, marks| player.ask_open(place, marks).unwrap(),
    )?;
    tour.print_open(
        "open with the whole pool",
        |place, marks| ask_finishable::<WorldInventory>(world, place, marks).unwrap(),
    )?;
    println!(rt; "placement: coin, lamp, coin")?;
    tour.print_walk(&[Some(1), Some(0), Some(2)])?;
    println!(rt; "placement: lamp, coin, coin")?;
    tour.print_walk(&[Some(0), Some(1), Some(2)])
}
