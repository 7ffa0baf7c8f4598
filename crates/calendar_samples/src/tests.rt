// Tables of cases: where the constructors refuse, what the masks are, and how many places are open.
use crate::piles::{even_carried_on, lent_carried_on, listed_closed};
use calendars::calendar::Calendar;
use calendars::even::Even;
use calendars::fault::CalendarFault;
use calendars::links::kth_open_link;
use calendars::listed::Listed;
use calendars::places::{capacity, open_places, place_counts, places_before, same_masks};
use std::test::Fail;

// links, end, slot, and the answer of the even calendar carried on
const EVEN: [(u8, u16, u16, Result<u8, CalendarFault>); 9] = [
    (8, 1024, 1023, Ok(0xff)),
    (9, 1024, 0, Err(CalendarFault::TooManyLinks)),
    (8, 1025, 0, Err(CalendarFault::TooLong)),
    (9, 1025, 0, Err(CalendarFault::TooManyLinks)),
    (3, 2, 1, Ok(7)),
    (3, 2, 1023, Ok(7)),
    (3, 2, 1024, Ok(0)),
    (3, 0, 5, Ok(0)),
    (0, 4, 1, Ok(0)),
];

#[test]
fn even_calendars_are_carried_on(rt: HostRuntime) {
    for (links, end, slot, answer) in EVEN {
        assert_eq!(rt; even_carried_on(links, end, slot), answer);
    }
}

// masks, first, past, closed links, slot, and the answer of the listed masks carried on and then closed
const LISTED: [(&[u8], u16, u16, u8, u16, Result<u8, CalendarFault>); 17] = [
    (&[0x00, 0x01], 0, 0, 0xff, 0, Ok(0x00)),
    (&[0x00, 0x01], 0, 0, 0xff, 1, Ok(0x01)),
    (&[0x00, 0x01], 0, 0, 0xff, 2, Ok(0x01)),
    (&[0x00, 0x01], 0, 0, 0xff, 1024, Ok(0x00)),
    (&[0x01, 0x03], 0, 0, 0xff, 0, Ok(0x01)),
    (&[0x01, 0x03], 0, 0, 0xff, 1023, Ok(0x03)),
    (&[], 0, 0, 0xff, 0, Ok(0x00)),
    (&[0x01, 0x03], 1, 3, 0x02, 0, Ok(0x01)),
    (&[0x01, 0x03], 1, 3, 0x02, 1, Ok(0x01)),
    (&[0x01, 0x03], 1, 3, 0x02, 2, Ok(0x01)),
    (&[0x01, 0x03], 1, 3, 0x02, 3, Ok(0x03)),
    (&[0x01, 0x03], 0, 1024, 0xff, 700, Ok(0x00)),
    (&[0x01, 0x03], 1024, 1024, 0xff, 1023, Ok(0x03)),
    (&[0x01, 0x03], 5, 5, 0xff, 5, Ok(0x03)),
    (&[0x01, 0x03], 6, 5, 0xff, 0, Err(CalendarFault::Backwards)),
    (
        &[0x01, 0x03],
        0,
        1025,
        0xff,
        0,
        Err(CalendarFault::PastLastSlot),
    ),
    (
        &[0x01, 0x03],
        1026,
        1025,
        0xff,
        0,
        Err(CalendarFault::Backwards),
    ),
];

#[test]
fn listed_calendars_are_carried_on_and_closed(rt: HostRuntime) {
    for (masks, first, past, closed, slot, answer) in LISTED {
        assert_eq!(rt; listed_closed(masks, first, past, closed, slot), answer);
    }
}

#[test]
fn lists_end_with_their_bytes(rt: HostRuntime) -> Result<(), Fail> {
    let masks = [0x01u8; 1025];
    assert_eq!(rt;
        listed_closed(&masks, 0, 0, 0, 0),
        Err(CalendarFault::TooLong)
    );
    assert_eq!(rt; CalendarFault::TooLong.number(), 16);
    let longest = Listed::new(&masks[0..1024])?;
    assert_eq!(rt; longest.end(), 1024);
    assert_eq!(rt; open_places(&longest), 1024);
    let short = Listed::new(&masks[0..2])?;
    for (slot, mask, carried) in [
        (0, 1, 1),
        (1, 1, 1),
        (2, 0, 1),
        (1023, 0, 1),
        (1024, 0, 0),
        (65535, 0, 0),
    ] {
        assert_eq!(rt; short.mask(slot), mask);
        assert_eq!(rt; lent_carried_on(&short, slot), carried);
    }
    Ok(())
}

#[test]
fn open_places_are_counted(rt: HostRuntime) -> Result<(), Fail> {
    let calendar = Listed::new(&[0x05, 0x00, 0xff])?;
    assert_eq!(rt; capacity(&calendar, 0), 2);
    for (slot, k, link) in [
        (0, 0, Some(0)),
        (0, 1, Some(2)),
        (0, 2, None),
        (1, 0, None),
        (2, 7, Some(7)),
        (2, 8, None),
        (3, 0, None),
    ] {
        assert_eq!(rt; kth_open_link(&calendar, slot, k), link);
    }
    let mut counts = [9u16; 1025];
    assert!(rt; place_counts(&calendar, &mut counts[0..1024]).is_err());
    assert_eq!(rt; counts[1], 9);
    assert!(rt; place_counts(&calendar, &mut counts).is_ok());
    for (slot, before) in [(0, 0), (1, 2), (2, 2), (3, 10), (1024, 10), (1025, 10)] {
        assert_eq!(rt; places_before(&calendar, slot), before);
        assert!(rt; slot > 1024 || counts[slot as usize] == before);
    }
    assert!(rt; same_masks(&calendar, &Listed::new(&[0x05, 0x00, 0xff, 0x00])?));
    assert!(rt; !same_masks(&calendar, &Even::new(8, 3)?));
    Ok(())
}
