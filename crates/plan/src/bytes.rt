// The plan record, as bytes and as a value.
ghost use Rattle.std.specs.Prelude.{◌≡◌, length};
ghost use Rattle.refusal.specs.Refusal.{numbered};
ghost use Rattle.plan.specs.Plan.{encoded};
ghost use Rattle.plan.specs.bytes.{plan_of, decoded, default_record, sysclk_record};

use crate::Plan;
use clock::Dll;
use refusal::Refusal;

// The fields of a record of 20 bytes.
pub fn fields(bytes: &[u8]) -> Plan
    requires { length bytes.now ≡ 20 }
    ensures { result ≡ plan_of bytes.now }
{
    Plan {
        sys: bytes[3],
        hdiv: bytes[4],
        pdiv1: bytes[5],
        pdiv2: bytes[6],
        dll1: crate::codes::dll(bytes[7], bytes[8], bytes[9]),
        dll2: crate::codes::dll(bytes[10], bytes[11], bytes[12]),
        hrc48_calibrate: bytes[13] == 1,
        usb: bytes[14] == 1,
        wdtsel: bytes[15],
        usbsel: bytes[16],
        perisel: bytes[17],
        mpi1sel: bytes[18],
        mpi2sel: bytes[19],
    }
}

// The plan of a record, or refusal 1, 2 or 3.
pub fn decode(bytes: &[u8]) -> Result<Plan, Refusal>
    ensures { numbered result ≡ decoded bytes.now }
{
    crate::tests::test(bytes)?;
    Ok(fields(bytes))
}

// The record of a plan. No call gives one; `decode` and it are proved to undo each other.
pub fn encode(p: Plan) -> [u8; 20]
    ensures { result ≡ encoded p }
{
    [
        0,
        18,
        1,
        p.sys,
        p.hdiv,
        p.pdiv1,
        p.pdiv2,
        crate::codes::present(p.dll1),
        crate::codes::stage(p.dll1),
        crate::codes::half(p.dll1),
        crate::codes::present(p.dll2),
        crate::codes::stage(p.dll2),
        crate::codes::half(p.dll2),
        u8::from(p.hrc48_calibrate),
        u8::from(p.usb),
        p.wdtsel,
        p.usbsel,
        p.perisel,
        p.mpi1sel,
        p.mpi2sel,
    ]
}

// `ConfigBuilder::new` and `default`.
pub fn new() -> Plan
    ensures { encoded result ≡ default_record }
{
    Plan {
        sys: 3,
        hdiv: 1,
        pdiv1: 1,
        pdiv2: 6,
        dll1: Some(Dll {
            stage: 9,
            half: false,
        }),
        dll2: Some(Dll {
            stage: 11,
            half: false,
        }),
        hrc48_calibrate: true,
        usb: true,
        wdtsel: 1,
        usbsel: 0,
        perisel: 1,
        mpi1sel: 0,
        mpi2sel: 2,
    }
}

// `ConfigBuilder::sysclk`.
pub fn sysclk() -> Plan
    ensures { encoded result ≡ sysclk_record }
{
    Plan {
        sys: 1,
        hdiv: 1,
        pdiv1: 0,
        pdiv2: 0,
        dll1: None,
        dll2: None,
        hrc48_calibrate: false,
        usb: false,
        wdtsel: 1,
        usbsel: 0,
        perisel: 1,
        mpi1sel: 0,
        mpi2sel: 0,
    }
}
