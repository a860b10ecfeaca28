// Draw sources, by example.
use draw::{BadSource, DrawSource, Seeded, Tape};
use std::test::Fail;

#[test]
fn seeded_with_one_and_asked_for_ten_a_source_answers_one(rt: HostRuntime) -> Result<(), Fail> {
    let mut source = Seeded::new(1)?;
    assert_eq!(rt; source.draw(10), 1);
    assert_eq!(rt; source.state(), 1082269761);
    Ok(())
}

#[test]
fn drawing_zero_changes_nothing(rt: HostRuntime) -> Result<(), Fail> {
    let mut source = Seeded::new(77)?;
    assert_eq!(rt; source.draw(0), 0);
    assert_eq!(rt; source.state(), 77);
    let mut tape = Tape::new(&[5, 6])?;
    assert_eq!(rt; tape.draw(0), 0);
    assert_eq!(rt; tape.draw(4), 1);
    Ok(())
}

#[test]
fn a_tape_past_its_end_answers_zero(rt: HostRuntime) -> Result<(), Fail> {
    let mut tape = Tape::new(&[7, 12])?;
    assert_eq!(rt; tape.draw(5), 2);
    assert_eq!(rt; tape.draw(5), 2);
    assert_eq!(rt; tape.draw(5), 0);
    assert_eq!(rt; tape.draw(1), 0);
    Ok(())
}

#[test]
fn a_seed_of_zero_and_a_tape_of_513_make_no_source(rt: HostRuntime) {
    assert_eq!(rt; Seeded::new(0).err(), Some(BadSource::ZeroSeed));
    assert!(rt; Tape::new(&[0; 512]).is_ok());
    assert_eq!(rt; Tape::new(&[0; 513]).err().map(BadSource::number), Some(38));
}
