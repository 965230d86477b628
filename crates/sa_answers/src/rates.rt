//! The numbers of rates (subnet administration, PathRecord).
ghost use Rattle.std.specs.Prelude.{◌≡◌};
ghost use Rattle.sa_answers.specs.Rates.{rate_number, rate_of_number};

/// Returns the number of a rate in tenths of Gb/s, or that of 2.5 Gb/s if the rate has none.
pub(crate) fn rate_number(rate: u16) -> u8
    ensures { result ≡ rate_number rate }
{
    match rate {
        50 => 5,
        100 => 3,
        140 => 11,
        200 => 6,
        250 => 15,
        280 => 19,
        300 => 4,
        400 => 7,
        500 => 20,
        560 => 12,
        600 => 8,
        800 => 9,
        1000 => 16,
        1120 => 13,
        1200 => 10,
        1680 => 14,
        2000 => 17,
        3000 => 18,
        4000 => 21,
        6000 => 22,
        8000 => 23,
        12000 => 24,
        _ => 2,
    }
}

/// Returns the rate with the number `number`, in tenths of Gb/s, or 0 if no rate has the number.
pub(crate) fn rate_of_number(number: u8) -> u16
    ensures { result ≡ rate_of_number number }
{
    match number {
        2 => 25,
        5 => 50,
        3 => 100,
        11 => 140,
        6 => 200,
        15 => 250,
        19 => 280,
        4 => 300,
        7 => 400,
        20 => 500,
        12 => 560,
        8 => 600,
        9 => 800,
        16 => 1000,
        13 => 1120,
        10 => 1200,
        14 => 1680,
        17 => 2000,
        18 => 3000,
        21 => 4000,
        22 => 6000,
        23 => 8000,
        24 => 12000,
        _ => 0,
    }
}
