//! Calls of who uses a representation.
use hc_entry::{ActiveEntry, Admission};
use hc_rules::BoundKind;
use hc_test_frame::{Fault, Vector, note};
use std::alloc::Global;

/// Who uses a representation.
#[derive(Drop)]
pub(crate) struct Binding {
    entry: ActiveEntry,
    // The exchange of its writer group is open.
    on: bool,
    // Who came alone has more to come.
    writes: bool,
}

impl Binding {
    /// Nobody is bound.
    pub(crate) fn new(alloc: Global) -> Binding {
        Binding {
            entry: ActiveEntry::new(alloc),
            on: false,
            writes: false,
        }
    }

    /// Makes the call. One that may change something writes then who is bound with the least number,
    /// whether a writer group is on, and who writes alone.
    pub(crate) fn note(&mut self, v: &Vector, to: &mut String) -> Result<(), Fault> {
        match v.call() {
            "active_admission nww" => note(&self.admission(v), to),
            _ => {
                self.change(v, to)?;
                self.look(to)
            }
        }
    }

    fn change(&mut self, v: &Vector, to: &mut String) -> Result<(), Fault> {
        match v.call() {
            "active_new" => *self = Binding::new(v.alloc()),
            "active_founded n" => *self = founded(v.alloc(), v.number(0))?,
            "active_resumed n" => *self = resumed(v.alloc(), v.number(0))?,
            "active_end_shared" => self.on = false,
            "active_admit nww" => return self.admit(v, to),
            _ => return self.settle_or_leave(v),
        }
        Ok(())
    }

    /// How one more may be bound.
    fn admission(&self, v: &Vector) -> Admission {
        self.entry
            .admission(self.kind(), is_ranged(v), has_holes(v))
    }

    /// As what all are bound.
    fn kind(&self) -> BoundKind {
        if self.on {
            BoundKind::Shared
        } else if self.writes && self.entry.first().is_some() {
            BoundKind::Exclusive
        } else {
            BoundKind::Reader
        }
    }

    /// Binds one more, and writes how.
    fn admit(&mut self, v: &Vector, to: &mut String) -> Result<(), Fault> {
        let c = v.number(0);
        if self.entry.is_bound(c) {
            return Err(Fault::NoSuchCall);
        }
        let admission = self.admission(v);
        match admission {
            Admission::Shared | Admission::Reader => self.entry.bind(c)?,
            Admission::Exclusive => {
                self.entry.bind_first(c)?;
                self.writes = true;
            }
            Admission::Behind(_) => {}
        }
        write!(to, "{admission:?}: ")?;
        Ok(())
    }

    /// One that is bound reads from now on, or leaves.
    fn settle_or_leave(&mut self, v: &Vector) -> Result<(), Fault> {
        let c = v.number(0);
        if !self.entry.is_bound(c) {
            return Err(Fault::NoSuchCall);
        }
        match v.call() {
            "active_settle n" => self.writes = false,
            "active_leave n" => {
                self.entry.leave(c, false);
            }
            _ => return Err(Fault::NoSuchCall),
        }
        Ok(())
    }

    fn look(&self, to: &mut String) -> Result<(), Fault> {
        let least = self.entry.least_bound();
        let writer_group = matches!(self.kind(), BoundKind::Shared) && least.is_some();
        let alone = match self.kind() {
            BoundKind::Exclusive => self.entry.first(),
            _ => None,
        };
        write!(
            to,
            "least {least:?}, writing {writer_group}, alone {alone:?}"
        )?;
        Ok(())
    }
}

fn is_ranged(v: &Vector) -> bool {
    v.word(1) == "ranged"
}

fn has_holes(v: &Vector) -> bool {
    v.word(2) == "holes"
}

/// One that a consumer founded, which an exchange writes for several.
fn founded(alloc: Global, c: u64) -> Result<Binding, Fault> {
    Ok(Binding {
        entry: ActiveEntry::founded(alloc, c, false, Some(1))?,
        on: true,
        writes: false,
    })
}

/// One to which a consumer came alone, and which its exchange writes for several now.
fn resumed(alloc: Global, c: u64) -> Result<Binding, Fault> {
    let mut entry = ActiveEntry::founded(alloc, c, true, None)?;
    entry.resume(1, 0)?;
    Ok(Binding {
        entry,
        on: true,
        writes: false,
    })
}
