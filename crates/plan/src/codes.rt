// The codes of a plan record's bytes.
ghost use Rattle.std.specs.Prelude.{◌≡◌, length};
ghost use Rattle.plan.specs.Code.{present_of, stage_of, half_of};
ghost use Rattle.plan.specs.codes.{dll_bytes_legal, coded, dll_of};

use clock::Dll;

// The largest value of each of the 17 bytes after the version.
pub const LARGEST: [u8; 17] = [3, 255, 7, 7, 1, 15, 1, 1, 15, 1, 1, 1, 1, 1, 1, 2, 2];

// Whether a DLL's three bytes are a present DLL's, or an absent one's with nothing set.
fn dll_bytes_legal(present: u8, stage: u8, half: u8) -> bool
    ensures { result ≡ dll_bytes_legal present stage half }
{
    present == 1 || (stage == 0 && half == 0)
}

// Whether the 17 bytes after the version lie within their codes.
pub fn is_coded(bytes: &[u8]) -> bool
    requires { length bytes.now ≡ 20 }
    ensures { result ≡ coded bytes.now }
{
    record::within(&bytes[3..], &LARGEST)
        && dll_bytes_legal(bytes[7], bytes[8], bytes[9])
        && dll_bytes_legal(bytes[10], bytes[11], bytes[12])
}

// A DLL of its three bytes.
pub fn dll(present: u8, stage: u8, half: u8) -> Option<Dll>
    ensures { result ≡ dll_of present stage half }
{
    (present == 1).then_some(Dll {
        stage,
        half: half == 1,
    })
}

pub fn present(d: Option<Dll>) -> u8
    ensures { result ≡ present_of d }
{
    u8::from(d.is_some())
}

pub fn stage(d: Option<Dll>) -> u8
    ensures { result ≡ stage_of d }
{
    d.map_or(0, |d| d.stage)
}

pub fn half(d: Option<Dll>) -> u8
    ensures { result ≡ half_of d }
{
    d.map_or(0, |d| u8::from(d.half))
}
