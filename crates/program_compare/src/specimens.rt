// The specimens of document 01 that stand in no theorem, and the listings of D and E: reads each and compares its listing.
use program_parts::{Tally, same_listing};
use read::read;
use std::io;

struct Specimen {
    name: &'static str,
    message: &'static [u8],
    listing: &'static [u8],
}

// Whole messages; the P-Abort cause, which goes from 0 to 4; and local codes, each in the Invoke of a Begin: fewest octets, signed.
const SPECIMENS: [Specimen; 8] = [
    Specimen {
        name: "D",
        message: b"\x62\x10\x48\x01\x05\x6C\x0B\xA1\x09\x02\x01\x01\x02\x01\x2D\x04\x01\x07",
        listing: b"begin 18 05 - none 1\n0 invoke 1 - local:45 15+3\n",
    },
    Specimen {
        name: "E",
        message: b"\x62\x13\x48\x01\x05\x6C\x0E\xA1\x0C\x02\x01\x01\x80\x01\x02\x02\x01\x2D\x04\x01\x07",
        listing: b"begin 21 05 - none 1\n0 invoke 1 2 local:45 18+3\n",
    },
    Specimen {
        name: "P",
        message: b"\x62\x23\x48\x01\x05\x6B\x1E\x28\x1C\x06\x07\x00\x11\x86\x05\x01\x01\x01\xA0\x11\x60\x0F\x80\x02\x07\x80\xA1\x09\x06\x07\x04\x00\x00\x01\x00\x01\x03",
        listing: b"begin 37 05 - request 0\n",
    },
    Specimen {
        name: "cause 4",
        message: b"\x67\x06\x49\x01\x05\x4A\x01\x04",
        listing: b"abort 8 - 05 cause:4 0\n",
    },
    Specimen {
        name: "cause 5",
        message: b"\x67\x06\x49\x01\x05\x4A\x01\x05",
        listing: b"refused 11 5 cause 3\n",
    },
    Specimen {
        name: "code 02 01 80",
        message: b"\x62\x0D\x48\x01\x05\x6C\x08\xA1\x06\x02\x01\x01\x02\x01\x80",
        listing: b"begin 15 05 - none 1\n0 invoke 1 - local:-128 -\n",
    },
    Specimen {
        name: "code 02 02 00 80",
        message: b"\x62\x0E\x48\x01\x05\x6C\x09\xA1\x07\x02\x01\x01\x02\x02\x00\x80",
        listing: b"begin 16 05 - none 1\n0 invoke 1 - local:128 -\n",
    },
    Specimen {
        name: "code 02 02 00 7F",
        message: b"\x62\x0E\x48\x01\x05\x6C\x09\xA1\x07\x02\x01\x01\x02\x02\x00\x7F",
        listing: b"refused 11 12 problem 1 component 0\n",
    },
];

pub fn compare_specimens(rt: &impl Print) -> io::Result<()> {
    let mut tally = Tally::default();
    for specimen in &SPECIMENS {
        let equal = same_listing(specimen.message, read(specimen.message), specimen.listing);
        let verdict = if equal { "ok" } else { "differs" };
        println!(rt; "{} {verdict}", specimen.name)?;
        tally = tally.counted(equal);
    }
    println!(rt; "{tally}")
}
