// Meters alone, on packets whose colours were worked out by hand from the documents.
use kinds::profiles::{AnyMeter, Fault, Level, Profile, TokenBucket};
use meter::alone::colour_packet;
use meter::measures::PacketColour::{Green, Red, Yellow};
use meter::measures::{Arrival, Colour, Grains, Load, Mode, Moment, PacketColour, Refusal, Size};
use meter::metering::Meter;
use std::process::Abort;
use std::test::Fail;

// Moment, size, arrival colour, and the colour that it should get.
type Step = (u64, u32, PacketColour, PacketColour);

fn follow(rt: &impl Abort, profile: Profile, steps: &[Step]) -> Result<(), Fail> {
    let mut meter = AnyMeter::new(profile).map_err(|_| Fail::new("not made"))?;
    for &(moment, size, colour, expected) in steps {
        let arrival = Arrival {
            moment: Moment(moment),
            size: Size(size),
            colour,
        };
        assert_eq!(rt; colour_packet(&mut meter, arrival), Ok(expected));
    }
    Ok(())
}

// Tc starts at 400 and Te at 300; 500 bytes a second go to Tc first, and what it has no place for to Te.
#[test]
fn single_rate(rt: HostRuntime) -> Result<(), Fail> {
    let steps = [
        (0, 300, Green, Green),
        (0, 200, Green, Yellow),
        (100_000, 200, Green, Red),
        (1_000_000, 350, Green, Green),
        (1_000_000, 50, Green, Green),
        (1_000_000, 1, Green, Yellow),
        (1_000_000, 299, Yellow, Yellow),
        (1_000_000, 1, Green, Red),
        (3_000_000, 1, Red, Red),
        (3_000_000, 300, Yellow, Yellow),
        (3_000_000, 400, Green, Green),
        (3_000_000, 1, Yellow, Red),
    ];
    follow(
        &rt,
        Profile::Sr {
            cir: 500,
            cbs: 400,
            ebs: 300,
        },
        &steps,
    )
}

// Tp starts at 800 and Tc at 500; they gain 2000 and 1000 bytes a second.
#[test]
fn two_rates(rt: HostRuntime) -> Result<(), Fail> {
    let steps = [
        (0, 500, Green, Green),
        (0, 300, Green, Yellow),
        (0, 1, Green, Red),
        (100_000, 101, Green, Yellow),
        (100_000, 99, Green, Green),
        (100_000, 1, Green, Red),
        (600_000, 1, Red, Red),
        (600_000, 500, Yellow, Yellow),
        (600_000, 300, Green, Green),
        (600_000, 1, Green, Red),
    ];
    follow(
        &rt,
        Profile::Tr {
            cir: 1000,
            cbs: 500,
            pir: 2000,
            pbs: 800,
        },
        &steps,
    )
}

// The theoretical arrival time goes 0, 10, 20, 30, 110.
#[test]
fn both_forms_of_gcra(rt: HostRuntime) -> Result<(), Fail> {
    let steps = [
        (0, 1, Green, Green),
        (0, 1, Green, Red),
        (4, 1, Green, Red),
        (5, 65_535, Yellow, Yellow),
        (14, 1, Green, Red),
        (15, 1, Green, Green),
        (100, 1, Red, Red),
        (100, 1, Green, Green),
        (104, 1, Green, Red),
        (105, 1, Green, Green),
    ];
    follow(
        &rt,
        Profile::Vs {
            interval: 10,
            tolerance: 5,
        },
        &steps,
    )?;
    follow(
        &rt,
        Profile::Lb {
            interval: 10,
            tolerance: 5,
        },
        &steps,
    )
}

fn fault(profile: Profile) -> Option<Fault> {
    AnyMeter::new(profile).err()
}

fn two_rate(cir: u64, cbs: u64, pir: u64, pbs: u64) -> Option<Fault> {
    fault(Profile::Tr { cir, cbs, pir, pbs })
}

#[test]
fn ranges(rt: HostRuntime) {
    assert_eq!(rt; two_rate(1, 1, 1, 1), None);
    assert_eq!(rt; two_rate(0, 0, 0, 0), Some(Fault::BadRate));
    assert_eq!(rt; two_rate(2, 0, 1, 0), Some(Fault::BadDepth));
    assert_eq!(rt; two_rate(2, 1, 1, 0), Some(Fault::PeakBelowCommitted));
    assert_eq!(rt; two_rate(2, 1, 1_000_000_001, 0), Some(Fault::BadRate));
    assert_eq!(rt; two_rate(2, 1, 2, 0), Some(Fault::BadDepth));
    assert_eq!(rt;
        fault(Profile::Sr {
            cir: 1,
            cbs: 0,
            ebs: 0,
        }),
        Some(Fault::BadDepth)
    );
    assert_eq!(rt;
        fault(Profile::Sr {
            cir: 1,
            cbs: 0,
            ebs: 1,
        }),
        None
    );
}

#[test]
fn modes(rt: HostRuntime) {
    assert_eq!(rt; Mode::Blind.sees(Red), Green);
    assert_eq!(rt; Mode::Aware.sees(Red), Red);
    assert_eq!(rt; Mode::Aware.sees(Yellow), Yellow);
}

fn load(size: u32, moment: u64) -> Load {
    Load {
        size: Size(size),
        moment: Moment(moment),
    }
}

// Whatever numbers a table holds: a fill above the depth stands for the depth, a rate of 0 for 1.
#[test]
fn plain_numbers(rt: HostRuntime) {
    let mut meter = TokenBucket {
        rate: 0,
        burst: 1,
        all: Level {
            fill: Grains(u64::MAX),
            last: Moment(5),
        },
    };
    assert_eq!(rt;
        meter.charge(load(1, 1_000_004), Colour::Green),
        Err(Refusal::Unfit)
    );
    assert_eq!(rt; meter.charge(load(1, 1_000_005), Colour::Green), Ok(()));
}

#[test]
fn refused_sizes_and_moments(rt: HostRuntime) {
    let mut meter = TokenBucket {
        rate: 1_000_000_000,
        burst: 1_000_000_000,
        all: Level {
            fill: Grains(0),
            last: Moment(7),
        },
    };
    let last = 4_294_967_295_999_999;
    let past = 4_294_967_296_000_000;
    let green = Colour::Green;
    assert_eq!(rt; meter.charge(load(0, past), green), Err(Refusal::BadSize));
    assert_eq!(rt;
        meter.charge(load(65_536, last), green),
        Err(Refusal::BadSize)
    );
    assert_eq!(rt; meter.charge(load(1, past), green), Err(Refusal::BadMoment));
    assert_eq!(rt; meter.charge(load(1, 6), green), Err(Refusal::Backward));
    assert_eq!(rt; meter.charge(load(1, 7), green), Ok(()));
    assert_eq!(rt; meter.charge(load(65_535, last), green), Ok(()));
    assert_eq!(rt; meter.charge(load(1, last), green), Ok(()));
}
