// Runs over a rack, and the bytes of its members.
ghost use Rattle.std.specs.Prelude.{◌≡◌, IfOk, length};
ghost use Rattle.dg_io.specs.MadeLaws.{after_through};

use crate::tests::{rack_of, source_of};
use dg_io::{Failed, MemSink, Rack};
use dg_run::{Status, run};
use std::alloc::Global;
use std::test::Fail;

// Bytes of all that a run prints.
const OUTPUT: usize = 131072;

// A run over a rack, by the words of a command with spaces between them: how it ended, and what it printed.
pub fn run_over<R: Rack>(
    alloc: Global,
    line: &str,
    input: &[u8],
    rack: &mut R,
) -> Result<(Status, Vec<u8>), Fail> {
    let mut words = Vec::new(alloc);
    for word in line.split(' ') {
        words.push(String::from_str(alloc, word)?)?;
    }
    let mut source = source_of(alloc, input, &[])?;
    let mut sink = MemSink::new(alloc, OUTPUT, Vec::new(alloc))?;
    let status = run(alloc, &words, &mut source, &mut sink, rack);
    Ok((status, Vec::from_slice(alloc, sink.taken())?))
}

// The bytes of `/d/b`: fragment i of the file has the bytes i + 1.
pub fn bytes_of_b(alloc: Global) -> Result<Vec<u8>, Fail> {
    let mut bytes = Vec::new(alloc);
    for byte in 1..53 {
        for _ in 0..1024 {
            bytes.push(byte)?;
        }
    }
    Ok(bytes)
}

// The first bytes of a member.
pub fn front_of<R: Rack>(
    alloc: Global,
    rack: &mut R,
    member: u8,
    count: usize,
) -> Result<Vec<u8>, Fail>
    ensures { IfOk result (λ bytes. length bytes.items ≡ count) }
{
    let mut bytes = vec![in alloc; 0u8; count]?;
    let Ok(Some(size)) = rack.attach(member) else {
        return Err("member".into());
    };
    if size < count as u64 {
        return Err("length".into());
    }
    let Ok(()) = rack.read(member, 0, &mut bytes) else {
        return Err("read".into());
    };
    Ok(bytes)
}

// Makes a member of these bytes, by two calls.
pub fn put<R: Rack>(rack: &mut R, member: u8, bytes: &[u8]) -> Result<(), Failed> {
    rack.blank(member, bytes.len() as u64)?;
    rack.write(member, 0, bytes)
}

// A rack that counts its calls.
#[derive(Drop)]
pub struct Counted<R> {
    pub rack: R,
    pub calls: u64,
}

impl<R: Rack> Rack for Counted<R> {
    ghost name = { λ r. R.name r.rack };

    ghost bytes = { λ r. R.bytes r.rack };

    ghost counts = { λ r. R.counts r.rack };

    ghost stands = { λ r. R.stands r.rack };

    ghost steady = { λ r. R.steady r.rack };

    ghost tells = { λ r. R.tells r.rack };

    ghost keeps = { λ r. R.keeps r.rack };

    ghost disks = { λ r. R.disks r.rack };

    ghost made = { λ a calls b. R.made a.rack calls b.rack };

    fn blank(&mut self, member: u8, length: u64) -> Result<(), Failed> {
        self.calls = self.calls.saturating_add(1);
        self.rack.blank(member, length)
    }

    fn attach(&mut self, member: u8) -> Result<Option<u64>, Failed> {
        self.calls = self.calls.saturating_add(1);
        self.rack.attach(member)
    }

    fn read(&mut self, member: u8, place: u64, buf: &mut [u8]) -> Result<(), Failed> {
        self.calls = self.calls.saturating_add(1);
        self.rack.read(member, place, buf)
    }

    fn write(&mut self, member: u8, place: u64, buf: &[u8]) -> Result<(), Failed> {
        self.calls = self.calls.saturating_add(1);
        self.rack.write(member, place, buf)
    }

    fn extend(&mut self, member: u8, length: u64) -> Result<(), Failed> {
        self.calls = self.calls.saturating_add(1);
        self.rack.extend(member, length)
    }

    ghost made_none = { λ s. R.made_none s.rack };

    ghost made_both = { λ a b c x y first second. R.made_both a.rack b.rack c.rack x y first second };

    ghost after = { λ a b calls made. let h = R.after a.rack b.rack calls made in
        after_through (λ s. s.rack) (λ s. R.name s.rack) R.name R.bytes R.counts R.stands R.steady R.tells R.keeps R.disks calls a b h.same_rack h };

    ghost tells_told = { λ s q h. R.tells_told s.rack q h };

    ghost told = { λ s q h stand. R.told s.rack q h stand };
}

// The calls that a replay makes where none fails, and the bytes that it prints.
pub fn mark_of(alloc: Global, input: &[u8]) -> Result<(u64, usize), Fail> {
    let rack = rack_of(alloc, &[])?;
    let mut rack = Counted { rack, calls: 0 };
    let (_, printed) = run_over(alloc, "replay", input, &mut rack)?;
    Ok((rack.calls, printed.len()))
}
