// A whole number by a power of ten: one division of two floats that hold them exactly, so the float nearest to the
// quotient.
ghost use Rattle.std.specs.Prelude.{◌≡◌, ◌^◌, ◌<◌, ◌≤◌, get_or, false};
ghost use Rattle.std.specs.Float.{binary64};
ghost use Rattle.std.specs.Float.Ieee.{of_bits, round};
ghost use Rattle.decimals_reading.specs.Tens.{tens};

// The words of 1.0, 10.0, .. up to 10 ^ 22, which a float still holds.
const TENS: [u64; 23] = [
    4607182418800017408,
    4621819117588971520,
    4636737291354636288,
    4652007308841189376,
    4666723172467343360,
    4681608360884174848,
    4696837146684686336,
    4711630319722168320,
    4726483295884279808,
    4741671816366391296,
    4756540486875873280,
    4771362005757984768,
    4786511204640096256,
    4801453603149578240,
    4816244402031689728,
    4831355200913801216,
    4846369599423283200,
    4861130398305394688,
    4876203697187506176,
    4891288408196988160,
    4906019910204099648,
    4921056587992461136,
    4936209963552724370,
];

fn ten(k: usize) -> f64
    requires { k < 23 }
    ensures { result ≡ of_bits binary64 (get_or tens k 0) }
{
    sheet_bits::float_of(TENS[k])
}

pub fn quotient(w: u64, k: usize) -> f64
    requires { (w ≤ 9007199254740992) × (k < 23) }
    ensures { result ≡ round binary64 false w (10 ^ k) }
{
    (w as f64) / ten(k)
}
