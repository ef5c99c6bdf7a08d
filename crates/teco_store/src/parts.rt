//! The parts of an output.
ghost use Rattle.std.specs.Prelude.{◌≡◌, ◌↔◌, ◌+◌, ◌-◌, ◌<◌, ◌≤◌, ◌^◌, ◌++◌, drop, IfSome, IsTrue};
ghost use Rattle.teco_store.specs.Output.{IsBoth};
ghost use Rattle.teco_store.specs.Parts.{own_size, piece, size, without, EndsWithin, IsOrdered};

use crate::pages::part;

/// A part of an output: so many of its own bytes, or what its source has from one place up to another.
#[derive(Clone, Copy)]
pub(crate) enum Part {
    Own(u32),
    Lent { from: u32, upto: u32 },
}

const _: () = prove!(size_of::<Part>() <= 12);

impl Part {
    // How many bytes it has.
    pub(crate) fn len(self) -> usize
        ensures { result ≡ size self }
    {
        match self {
            Part::Own(count) => count as usize,
            Part::Lent { from, upto } => upto.saturating_sub(from) as usize,
        }
    }

    // How many of the output's own bytes it has.
    pub(crate) fn own(self) -> usize
        ensures { result ≡ own_size self }
    {
        match self {
            Part::Own(count) => count as usize,
            Part::Lent { .. } => 0,
        }
    }

    // The part without so many bytes at its end.
    pub(crate) fn without(self, over: usize) -> Part
        requires { over ≤ size self }
        ensures { result ≡ without self over }
    {
        match self {
            Part::Own(count) => Part::Own(count - over as u32),
            Part::Lent { from, upto } => Part::Lent {
                from,
                upto: upto - over as u32,
            },
        }
    }

    // Whether it ends within so many bytes of the source.
    pub(crate) fn ends_within(self, end: usize) -> bool
        ensures { IsTrue result ↔ EndsWithin end self }
    {
        match self {
            Part::Own(_) => true,
            Part::Lent { upto, .. } => upto as usize <= end,
        }
    }

    // The part's bytes in two slices, where these own ones are left and the source is these two texts; and the own ones that are left
    // after it.
    pub(crate) fn split<'a>(
        self,
        own: &'a [u8],
        input: &'a [u8],
        shared: &'a [u8],
    ) -> (&'a [u8], &'a [u8], &'a [u8])
        ensures piece { result.0.now ++ result.1.now
            ≡ piece own.entry.now (input.entry.now ++ shared.entry.now) self }
        ensures own { result.2.now ≡ drop (own_size self) own.entry.now }
    {
        match self {
            Part::Own(count) => {
                let (slice, rest) = own.split_at(own.len().min(count as usize));
                (slice, &[], rest)
            }
            Part::Lent { from, upto } => {
                let end = input.len().saturating_add(shared.len()).min(upto as usize);
                let (slice, next) = part(input, shared, end.min(from as usize), end);
                (slice, next, own)
            }
        }
    }

    // The part with the next one after it, where they join.
    pub(crate) fn with(self, next: Part) -> Option<Part>
        requires ordered { IsOrdered self × IsOrdered next }
        requires few { own_size self + own_size next < 2 ^ 32 }
        ensures { IfSome result (IsBoth self next) }
    {
        match (self, next) {
            (Part::Own(count), Part::Own(more)) => Some(Part::Own(count + more)),
            (
                Part::Lent { from, upto },
                Part::Lent {
                    from: at,
                    upto: end,
                },
            ) if upto == at => { Some(Part::Lent { from, upto: end }) }
            _ => None,
        }
    }
}
