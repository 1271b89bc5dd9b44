// What no clause says: that the calls succeed, which address is of which group, and two groups with tapes of their own.
ghost use Rattle.std.specs.Prelude.{◌≡◌, [], All, IfOk};

use apple_msg::Name;
use jm_book::{Book, Config};
use jm_edge::Addr;
use jm_groups::*;
use std::alloc::Global;
use std::test::*;

// So many books that have taken no step.
fn books(count: u32, alloc: Global) -> Result<Vec<Book>, Fail>
    ensures { IfOk result (λ books. All (λ b. b.steps ≡ []) books.items) }
{
    let mut books = Vec::new(alloc);
    for ssrc in 0..count {
        let name = Name::new(b"midi_host").ok_or("a name")?;
        let config = Config {
            ssrc,
            events: 8,
            name,
        };
        books.push(Book::new(config, alloc)?)?;
    }
    Ok(books)
}

const ALL: Route = Route { host: 0, bits: 0 };

const LONG: Route = Route { host: 0, bits: 33 };

// Why so many books and these routes make no groups.
fn refusal(count: u32, routes: &[Route], alloc: Global) -> Result<Option<GroupsFault>, Fail> {
    let books = books(count, alloc)?;
    let routes = routes.to_vec(alloc)?;
    Ok(Groups::new(books, routes, alloc).err())
}

#[test]
fn refusals_in_their_order(rt: HostRuntime) -> Result<(), Fail> {
    let alloc = rt.alloc();
    assert_eq!(rt; refusal(0, &[LONG], alloc)?, Some(GroupsFault::NoGroup));
    assert_eq!(rt;
        refusal(9, &[LONG], alloc)?,
        Some(GroupsFault::TooMany { count: 9 })
    );
    assert_eq!(rt;
        refusal(2, &[LONG, LONG], alloc)?,
        Some(GroupsFault::RouteCount { count: 2 })
    );
    assert_eq!(rt;
        refusal(4, &[ALL, LONG, LONG], alloc)?,
        Some(GroupsFault::BadRoute { place: 1 })
    );
    assert_eq!(rt; refusal(8, &[ALL; 7], alloc)?, None);
    assert_eq!(rt; refusal(1, &[], alloc)?, None);
    Ok(())
}

#[test]
fn the_first_route_that_is_met(rt: HostRuntime) -> Result<(), Fail> {
    let routes = [
        Route {
            host: 0x0A01_FFFF,
            bits: 16,
        },
        Route {
            host: 0x0A00_0000,
            bits: 8,
        },
        Route {
            host: 0x0A01_0203,
            bits: 32,
        },
        Route {
            host: 0xC0A8_0001,
            bits: 32,
        },
    ];
    let routes = routes.to_vec(rt.alloc())?;
    let books = books(5, rt.alloc())?;
    let Ok((groups, _passes)) = Groups::new(books, routes, rt.alloc()) else {
        return Err(Fail::new("no groups"));
    };
    assert_eq!(rt; groups.count(), 5);
    let table = [
        (0x0A01_0203, 1),
        (0x0A02_0203, 2),
        (0xC0A8_0001, 4),
        (0xC0A8_0002, 0),
        (0x7F00_0001, 0),
    ];
    for (host, group) in table {
        assert_eq!(rt; groups.group_of(Addr { host, port: 5004 }), group);
        assert_eq!(rt; groups.group_of(Addr { host, port: 0 }), group);
    }
    Ok(())
}

#[test]
fn two_groups_with_tapes_of_their_own(rt: HostRuntime) -> Result<(), Fail> {
    let books = books(2, rt.alloc())?;
    let routes = [ALL].to_vec(rt.alloc())?;
    let Ok((groups, passes)) = Groups::new(books, routes, rt.alloc()) else {
        return Err(Fail::new("no groups"));
    };
    assert_eq!(rt; groups.count(), 2);
    assert_eq!(rt; groups.desk(1).ssrc(), 1);
    let tapes = groups.close(passes);
    assert_eq!(rt; tapes.len(), 2);
    assert!(rt; tapes[0].is_empty() && tapes[1].is_empty());
    Ok(())
}

#[test]
fn passes_for_another_thread(rt: HostRuntime) -> Result<(), Fail> {
    let books = books(2, rt.alloc())?;
    let routes = [ALL].to_vec(rt.alloc())?;
    let Ok((groups, mut passes)) = Groups::new(books, routes, rt.alloc()) else {
        return Err(Fail::new("no groups"));
    };
    let others = passes.split(&groups)?;
    passes.join(&groups, others);
    assert_eq!(rt; groups.count(), 2);
    Ok(())
}
