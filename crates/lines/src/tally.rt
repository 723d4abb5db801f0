// How many comparisons came out right. What is wrong is printed with its name.
use std::io;

#[derive(Clone, Copy, Debug, PartialEq, Eq)]
pub struct Tally {
    pub right: u64,
    pub wrong: u64,
}

// The most that a tally counts.
const MOST: u64 = 65535;

fn more(n: u64) -> u64 {
    if n < MOST { n + 1 } else { n }
}

impl Tally {
    pub fn none() -> Tally {
        Tally { right: 0, wrong: 0 }
    }

    // One comparison more: the line that says of what, and the line that asks. The only error is that of a write.
    pub fn count<R: Print>(self, rt: &R, name: &[u8], line: &[u8], ok: bool) -> io::Result<Tally> {
        if ok {
            return Ok(Tally {
                right: more(self.right),
                wrong: self.wrong,
            });
        }
        rt.write_all(b"wrong: ")?;
        rt.write_all(name)?;
        rt.write_all(line)?;
        Ok(Tally {
            right: self.right,
            wrong: more(self.wrong),
        })
    }

    // The only error is that of a write.
    pub fn print<R: Print>(self, rt: &R) -> io::Result<()> {
        let right = self.right;
        let wrong = self.wrong;
        println!(rt; "{right} right, {wrong} wrong")
    }
}
