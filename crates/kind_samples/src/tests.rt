// The three kinds on examples: their ranges, their ranks, their bytes and their totals, all through the code for every kind.
use kinds::class::Class;
use kinds::classed::Classed;
use kinds::points::Points;
use kinds::share::Share;
use std::test::Fail;
use weights::bytes::through_bytes;
use weights::fault::WeightFault;
use weights::kind::{OrderedWeight, TotalledWeight};
use weights::ranking::{in_rank_order, ranks_before};
use weights::totals::{adds_at_least, total_of};

// Whether a weight is read as itself after it was written into the space.
fn comes_back<W: OrderedWeight>(weight: &W, space: &mut [u8]) -> bool {
    through_bytes(weight, space).is_some_and(|read| read.at_least(weight) && weight.at_least(&read))
}

#[test]
fn ranges(rt: HostRuntime) -> Result<(), Fail> {
    for (count, stands) in [(0, false), (1, true), (4294967295, true)] {
        assert_eq!(rt; Points::new(count).is_ok(), stands);
    }
    for (class, points, stands) in [(0, 0, false), (5, 1, false), (0, 1, true), (4, 65535, true)] {
        assert_eq!(rt; Classed::new(class, points).is_ok(), stands);
    }
    for (part, whole, stands) in [
        (0, 1, false),
        (1, 0, false),
        (65535, 1, true),
        (1, 65535, true),
    ] {
        assert_eq!(rt; Share::new(part, whole).is_ok(), stands);
    }
    assert_eq!(rt; Points::new(4294967295)?.count(), 4294967295);
    let classed = Classed::new(4, 65535)?;
    assert_eq!(rt; (classed.class(), classed.points()), (Class::D, 65535));
    let share = Share::new(1, 65535)?;
    assert_eq!(rt; (share.part(), share.whole()), (1, 65535));
    assert_eq!(rt; WeightFault::NoWeight.number(), 7);
    assert_eq!(rt; Class::try_from(4), Ok(Class::D));
    assert_eq!(rt; Class::try_from(5), Err(WeightFault::NoWeight));
    Ok(())
}

// The weights that a kind begins with, and how weights and totals are printed.
#[test]
fn defaults_and_texts(rt: HostRuntime) -> Result<(), Fail> {
    let heap = rt.alloc();
    let classed = Classed::new(3, 515)?;
    let points = total_of(&[Points::new(9)?], &[true], 1).ok_or("counted")?;
    let sums = total_of(&[classed], &[true], 1).ok_or("counted")?;
    for (text, due) in [
        (format!(in heap; "{}", Points::default())?, "1"),
        (format!(in heap; "{}", Classed::default())?, "QM:1"),
        (format!(in heap; "{}", Share::default())?, "1/1"),
        (format!(in heap; "{classed}")?, "C:515"),
        (format!(in heap; "{points}")?, "9"),
        (format!(in heap; "{sums}")?, "0/515/0/0/0"),
    ] {
        assert_eq!(rt; text.as_str(), due);
    }
    Ok(())
}

// Class A with 1 point ranks before QM with 65,535; 1/2 and 2/4 weigh the same, so the lower number ranks first.
#[test]
fn ranks(rt: HostRuntime) -> Result<(), Fail> {
    for (a, m, b, n, before) in [
        (9, 2, 8, 1, true),
        (9, 1, 9, 2, true),
        (9, 2, 9, 2, false),
        (8, 1, 9, 2, false),
    ] {
        assert_eq!(rt;
            ranks_before(&Points::new(a)?, m, &Points::new(b)?, n),
            before
        );
    }
    for (c, a, m, d, b, n, before) in [
        (1, 1, 2, 0, 65535, 1, true),
        (0, 65535, 1, 1, 1, 2, false),
        (3, 7, 2, 3, 6, 1, true),
    ] {
        assert_eq!(rt;
            ranks_before(&Classed::new(c, a)?, m, &Classed::new(d, b)?, n),
            before
        );
    }
    for (a, c, m, b, d, n, before) in [
        (1, 2, 1, 2, 4, 2, true),
        (2, 4, 1, 1, 2, 2, true),
        (2, 4, 2, 1, 2, 1, false),
        (2, 3, 9, 1, 2, 1, true),
    ] {
        assert_eq!(rt;
            ranks_before(&Share::new(a, c)?, m, &Share::new(b, d)?, n),
            before
        );
    }
    Ok(())
}

// A row of each kind whose first is the heaviest and whose other two weigh the same.
#[test]
fn rows(rt: HostRuntime) -> Result<(), Fail> {
    let points = [Points::new(9)?, Points::new(7)?, Points::new(7)?];
    let classed = [
        Classed::new(1, 1)?,
        Classed::new(0, 9)?,
        Classed::new(0, 9)?,
    ];
    let shares = [Share::new(2, 3)?, Share::new(2, 4)?, Share::new(1, 2)?];
    for (numbers, n, ordered) in [
        ([4, 1, 2], 3, true),
        ([4, 2, 1], 3, false),
        ([4, 2, 1], 2, true),
        ([4, 1, 2], 4, false),
    ] {
        assert_eq!(rt; in_rank_order(&numbers, &points, n), ordered);
        assert_eq!(rt; in_rank_order(&numbers, &classed, n), ordered);
        assert_eq!(rt; in_rank_order(&numbers, &shares, n), ordered);
    }
    Ok(())
}

#[test]
fn bytes(rt: HostRuntime) -> Result<(), Fail> {
    let points = Points::new(66051)?;
    let classed = Classed::new(4, 515)?;
    let share = Share::new(1, 258)?;
    let mut spaces = ([9u8; 4], [9u8; 3], [9u8; 4], [9u8; 3]);
    let back = (
        comes_back(&points, &mut spaces.0),
        comes_back(&classed, &mut spaces.1),
        comes_back(&share, &mut spaces.2),
        comes_back(&points, &mut spaces.3),
    );
    assert_eq!(rt; back, (true, true, true, false));
    assert_eq!(rt; spaces, ([0, 1, 2, 3], [4, 2, 3], [0, 1, 1, 2], [9, 9, 9]));
    assert!(rt; Points::read(&[0, 0, 0, 0]).is_err());
    assert!(rt; Classed::read(&[5, 0, 1]).is_err());
    assert!(rt; Share::read(&[0, 1, 0, 0]).is_err());
    Ok(())
}

// One point in class C is a heavier total than any points in lower classes.
#[test]
fn totals(rt: HostRuntime) -> Result<(), Fail> {
    let many = Points::new(4294967295)?;
    let row = [many, Points::new(7)?, many];
    let total = total_of(&row, &[true, false, true], 3).ok_or("counted")?;
    assert_eq!(rt; total.sum(), 8589934590);
    assert_eq!(rt; adds_at_least(total, &row[1], &many), Some(false));
    assert!(rt; total_of(&row, &[true, false, true], 4).is_none());
    let one = Classed::new(3, 1)?;
    let most = Classed::new(2, 65535)?;
    let row = [one, most, most];
    let first = total_of(&row, &[true, false, false], 3).ok_or("counted")?;
    let rest = total_of(&row, &[false, true, true], 3).ok_or("counted")?;
    assert_eq!(rt; rest.sums(), [0, 0, 131070, 0, 0]);
    assert_eq!(rt;
        (
            Classed::at_least_total(&first, &rest),
            Classed::at_least_total(&rest, &first),
        ),
        (true, false)
    );
    assert_eq!(rt; adds_at_least(rest, &one, &most), Some(true));
    Ok(())
}
