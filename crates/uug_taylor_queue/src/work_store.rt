//! The jobs of an end over the C. files of a system.
ghost use Rattle.std.specs.Prelude.{◌≡◌, ◌≤◌, ◌++◌, Some, IfErr, OnErr, OnOk, length, map};
ghost use Rattle.uug_store.specs.Notices.{also_told as notices_told};
ghost use Rattle.uug_store.specs.OpenJobs.{IsSettledOrNot, settled_in};
ghost use Rattle.uug_store.specs.TextFiles.{IsReadFault};
ghost use Rattle.uug_taylor_text.specs.Operations.{FrontDone, HasFault, TellsSome, also_all, also_told};
ghost use Rattle.uug_taylor_queue.specs.OpenLines.{jobs_of};
ghost use Rattle.uug_taylor_queue.specs.OverOrder.{lines_after};
ghost use Rattle.uug_taylor_queue.specs.Rewriting.{replacing, settling_ops, shown_text, texts_settled};
ghost use Rattle.uug_taylor_queue.specs.Code.Parting.{parted_ops};
ghost use Rattle.uug_taylor_queue.specs.WorkStores.{IsToldFirst, files_of, lines_of};

use crate::command_text::{CommandText, replace_all, rewritten, texts_after};
use crate::open_line::{OpenLine, Outcome};
use crate::parted::{Parted, divided};
use crate::settled::settle_first;
use std::alloc::Allocator;
use uug_session::Job;
use uug_store::JobStore;
use uug_stream::ToolFault;
use uug_taylor_text::{Disk, DiskFailed};

/// The jobs of an end over the C. files of a system: the open lines, the texts of these files, and the disk from which
/// a line that is over is removed.
#[derive(Drop)]
pub struct WorkStore<D, A: Allocator> {
    pub disk: D,
    lines: Vec<OpenLine, A>,
    files: Vec<CommandText<A>, A>,
    alloc: A,
}

impl<D: Disk, A: Allocator + Copy> WorkStore<D, A> {
    /// Makes the store of these lines, which were read from these C. files on this disk.
    pub fn new(alloc: A, disk: D, lines: Vec<OpenLine, A>, files: Vec<CommandText<A>, A>) -> Self
        ensures lines { lines_of result ≡ lines.items }
        ensures files { files_of result ≡ map shown_text files.items }
        ensures disk { result.disk ≡ disk }
    {
        WorkStore {
            disk,
            lines,
            files,
            alloc,
        }
    }

    /// Returns the open lines.
    pub fn lines(&self) -> &[OpenLine]
        ensures { result.now ≡ lines_of self.now }
    {
        self.lines.as_slice()
    }

    /// Removes these jobs, each once: those that are done (`struck`), and those that have failed. Appends the notice
    /// before it removes anything. The copy of a line with two jobs is removed when both are done, and preserved when
    /// one has failed. A C. file that has lost a line without a copy, and has others, is rewritten. After an error the
    /// lines are as before, but some that are over may be gone from the disk.
    #[tactic(auto, using(crate::proofs::OverLemmas::none_done, crate::proofs::StoreLemmas::tells_none, crate::proofs::StoreLemmas::tells_all))]
    pub fn settle_jobs<B: Allocator + Copy>(
        &mut self,
        alloc: B,
        struck: &[Job],
        failed: &[Job],
        notice: &[u8],
    ) -> Result<(), ToolFault>
        ensures lines { OnOk result (lines_of self.new
            ≡ lines_after struck.now failed.now (lines_of self.old)) }
        ensures done { OnOk result (D.done self.new.disk
            ≡ also_all (settling_ops struck.now failed.now (lines_of self.old) (files_of self.old))
            (D.done self.old.disk)) }
        ensures files { OnOk result (files_of self.new
            ≡ texts_settled struck.now failed.now (lines_of self.old) (files_of self.old)) }
        ensures told { OnOk result (D.told self.new.disk ≡ also_told notice.now (D.told self.old.disk)) }
        ensures same { OnErr result (lines_of self.new ≡ lines_of self.old) }
        ensures same_files { OnErr result (files_of self.new ≡ files_of self.old) }
        ensures front { OnErr result (FrontDone
            (settling_ops struck.now failed.now (lines_of self.old) (files_of self.old))
            (D.done self.old.disk) (D.done self.new.disk)) }
        ensures told_some { OnErr result (TellsSome notice.now (D.told self.old.disk) (D.told self.new.disk)) }
        // Nothing is removed from the disk before the whole notice is appended.
        ensures first { OnErr result (IsToldFirst notice.now (D.told self.old.disk) (D.told self.new.disk)
            (D.done self.old.disk) (D.done self.new.disk)) }
        ensures calm { OnOk result (D.fault_count self.new.disk ≡ D.fault_count self.old.disk) }
        ensures fault { IfErr result (λ fault.
            IsReadFault fault (D.fault_count self.old.disk) (D.fault_count self.new.disk)) }
    {
        let parted = divided(self.alloc, alloc, self.lines.as_slice(), struck, failed)?;
        let (gone, _) = parted
            .order
            .as_slice()
            .split_at(parted.done + parted.failed);
        let left = parted.left.as_slice();
        let files = texts_after(self.alloc, self.files.as_slice(), gone, left)?;
        let texts = rewritten(alloc, files.as_slice(), gone, left)?;
        if tell_some(&mut self.disk, notice).is_err() {
            return Err(ToolFault::Device);
        }
        match settle_all(&mut self.disk, &parted, texts.as_slice()) {
            Ok(()) => (),
            Err(DiskFailed) => return Err(ToolFault::Device),
        }
        self.lines = parted.left;
        self.files = files;
        Ok(())
    }
}

/// Appends these notices of failed jobs, if there are any.
fn tell_some<D: Disk>(disk: &mut D, notice: &[u8]) -> Result<(), DiskFailed>
    ensures ok { OnOk result (D.told disk.new ≡ also_told notice.now (D.told disk.old)) }
    ensures err { OnErr result (TellsSome notice.now (D.told disk.old) (D.told disk.new)) }
    ensures same { D.done disk.new ≡ D.done disk.old }
    ensures calm { OnOk result (D.fault_count disk.new ≡ D.fault_count disk.old) }
    ensures fault { OnErr result
        (HasFault u64.MAX (D.fault_count disk.old) (D.fault_count disk.new)) }
{
    if notice.is_empty() {
        return Ok(());
    }
    disk.tell(notice)
}

/// Removes the lines that are over from the disk, and then rewrites these C. files.
#[tactic(auto, using(crate::proofs::OverLemmas::both_done, crate::proofs::OverLemmas::front_of_first, crate::proofs::OverLemmas::front_of_both))]
fn settle_all<D: Disk, A: Allocator, B: Allocator, C: Allocator>(
    disk: &mut D,
    parted: &Parted<A, B>,
    texts: &[CommandText<C>],
) -> Result<(), DiskFailed>
    requires { parted.now.done ≤ length parted.now.order.items }
    ensures ok { OnOk result (D.done disk.new
        ≡ also_all (parted_ops parted.now ++ replacing (map shown_text texts.now)) (D.done disk.old)) }
    ensures err { OnErr result (FrontDone
        (parted_ops parted.now ++ replacing (map shown_text texts.now))
        (D.done disk.old) (D.done disk.new)) }
    ensures told { D.told disk.new ≡ D.told disk.old }
    ensures calm { OnOk result (D.fault_count disk.new ≡ D.fault_count disk.old) }
    ensures fault { OnErr result
        (HasFault u64.MAX (D.fault_count disk.old) (D.fault_count disk.new)) }
{
    settle_parted(disk, parted)?;
    replace_all(disk, texts)?;
    Ok(())
}

/// Removes the lines that are over from the disk.
#[tactic(auto, using(crate::proofs::OverLemmas::both_done, crate::proofs::OverLemmas::front_of_first, crate::proofs::OverLemmas::front_of_both))]
fn settle_parted<D: Disk, A: Allocator, B: Allocator>(
    disk: &mut D,
    parted: &Parted<A, B>,
) -> Result<(), DiskFailed>
    requires { parted.now.done ≤ length parted.now.order.items }
    ensures ok { OnOk result (D.done disk.new ≡ also_all (parted_ops parted.now) (D.done disk.old)) }
    ensures err { OnErr result (FrontDone (parted_ops parted.now) (D.done disk.old) (D.done disk.new)) }
    ensures told { D.told disk.new ≡ D.told disk.old }
    ensures calm { OnOk result (D.fault_count disk.new ≡ D.fault_count disk.old) }
    ensures fault { OnErr result
        (HasFault u64.MAX (D.fault_count disk.old) (D.fault_count disk.new)) }
{
    let order = parted.order.as_slice();
    let (_, behind) = order.split_at(parted.done);
    settle_first(disk, order, parted.done, Outcome::Done)?;
    settle_first(disk, behind, parted.failed, Outcome::Failed)?;
    Ok(())
}

#[tactic(auto, using(crate::proofs::StoreLemmas::store_is_settled, crate::proofs::StoreLemmas::store_told, crate::proofs::StoreLemmas::store_stays))]
impl<D: Disk, A: Allocator + Copy> JobStore for WorkStore<D, A> {
    ghost open_jobs = { λ store. Some (jobs_of (lines_of store)) };

    ghost told = { λ store. D.told store.disk };

    ghost fault_count = { λ store. D.fault_count store.disk };

    /// Removes the jobs from the disk. The disk operations follow from their lines and files.
    fn settle<B: Allocator + Copy>(
        &mut self,
        alloc: B,
        struck: &[Job],
        failed: &[Job],
        notice: &[u8],
    ) -> Result<(), ToolFault>
        ensures done { OnOk result (D.done self.new.disk
            ≡ also_all (settling_ops struck.now failed.now (lines_of self.old) (files_of self.old))
            (D.done self.old.disk)) }
        ensures front { OnErr result (FrontDone
            (settling_ops struck.now failed.now (lines_of self.old) (files_of self.old))
            (D.done self.old.disk) (D.done self.new.disk)) }
        ensures lines { OnOk result (lines_of self.new
            ≡ lines_after struck.now failed.now (lines_of self.old)) }
        ensures files { OnOk result (files_of self.new
            ≡ texts_settled struck.now failed.now (lines_of self.old) (files_of self.old)) }
        ensures first { OnErr result (IsToldFirst notice.now
            (D.told self.old.disk) (D.told self.new.disk)
            (D.done self.old.disk) (D.done self.new.disk)) }
        ensures ok { OnOk result (Some (jobs_of (lines_of self.new))
            ≡ settled_in (struck.now ++ failed.now) (Some (jobs_of (lines_of self.old)))) }
        ensures told { OnOk result (D.told self.new.disk
            ≡ notices_told notice.now (D.told self.old.disk)) }
        ensures err { OnErr result (IsSettledOrNot (struck.now ++ failed.now) notice.now
            (Some (jobs_of (lines_of self.old))) (Some (jobs_of (lines_of self.new)))
            (D.told self.old.disk) (D.told self.new.disk)) }
        ensures calm { OnOk result (D.fault_count self.new.disk ≡ D.fault_count self.old.disk) }
        ensures fault { IfErr result (λ fault.
            IsReadFault fault (D.fault_count self.old.disk) (D.fault_count self.new.disk)) }
    {
        self.settle_jobs(alloc, struck, failed, notice)
    }
}
