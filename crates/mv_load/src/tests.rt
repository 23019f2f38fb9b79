//! The demonstration guests, and the input of a load of one connection.

use super::*;
use mv_orders::Stage;
use mv_text::assemble;
use mv_validator::validate;
use std::test::Fail;

#[test]
fn each_text_is_a_valid_module(rt: HostRuntime) -> Result<(), Fail> {
    let alloc = rt.alloc();
    for which in [Demo::Old, Demo::New, Demo::Bang, Demo::OldBang] {
        let module = assemble(alloc, guest_text(which))?;
        assert!(rt; validate(alloc, module).is_ok());
    }
    Ok(())
}

#[test]
fn the_pieces_of_the_first_connection(rt: HostRuntime) -> Result<(), Fail> {
    let script = load_script(rt.alloc(), 1)?;
    let lengths = [22, 50, 26, 29];
    let pieces = script.conns.slice()[0].pieces.slice();
    assert_eq!(rt; pieces.len(), lengths.len());
    for i in 0..lengths.len() {
        assert_eq!(rt; pieces[i].slice().len(), lengths[i]);
    }
    Ok(())
}

#[test]
fn a_load_of_one_connection(rt: HostRuntime) -> Result<(), Fail> {
    let log = load(rt.alloc(), 1)?;
    let figures = figures_of(log.entries.slice());
    let expected = Figures {
        calls: 12,
        bytes: 127,
        forks: 1,
        promotes: 1,
        stage: Stage::NewAlone,
    };
    assert_eq!(rt; figures, expected);
    assert!(rt; audit_load(rt.alloc(), &log)?);
    Ok(())
}
