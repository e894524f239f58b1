//! Worlds start on keepers and stores in memory, with ample memory.

ghost use Rattle.std.specs.Prelude.{◌≡◌, ◌≤◌, IfOk, Some};
ghost use Rattle.hb_store.specs.MemStores.{contents_of};
ghost use Rattle.hb_world.specs.Starting.{CanStart};

use crate::reading::read_rows;
use crate::{StartFault, World, empty_devices_are_at_rest};
use hb_desk::Desk;
use hb_keeper::MemKeeper;
use hb_model::changes::{Stamp, project_made, upload_begun};
use hb_model::{Misfit, fit};
use hb_records::{
    Batch, Blob, ChangeList, Digest, Entry, EntryKind, ImmuteList, Listed, Name, Project,
    ProjectName, RetainList, Row, Rules, Status, Table, Upload,
};
use hb_rows::Rows;
use hb_store::MemStore;
use std::alloc::Global;
use std::test::Fail;

const NOW: u64 = 1_700_000_000;

// A keeper without rows, of which these calls fail, and a store without content.
fn empty_devices(alloc: Global, fails: &[u64]) -> Result<(MemKeeper, MemStore), Fail>
    ensures { IfOk result (λ made. CanStart (Some made.0.rows) (Some (contents_of made.1))) }
{
    empty_devices_are_at_rest();
    let keeper = MemKeeper::new(alloc, fails.to_vec(alloc)?);
    let store = MemStore::new(alloc, Vec::new(alloc));
    Ok((keeper, store))
}

// The moment of a world that starts on these devices, and the devices when it is closed.
fn started(
    alloc: Global,
    keeper: MemKeeper,
    store: MemStore,
    now: u64,
) -> Result<(u64, MemKeeper, MemStore), Fail>
    requires { CanStart (Some keeper.rows) (Some (contents_of store)) }
    ensures { IfOk result (λ made. CanStart (Some made.1.rows) (Some (contents_of made.2))) }
{
    match World::start(alloc, keeper, store, now) {
        Ok(world) => {
            let moment = world.moment();
            let (keeper, store) = world.close();
            Ok((moment, keeper, store))
        }
        Err(refused) => Err(refused.fault)?,
    }
}

// The moments of the entries, and how many projects there are.
fn state(keeper: &MemKeeper) -> (Option<u64>, usize, usize) {
    let rows = keeper.rows();
    (
        rows.entries().last().map(|entry| entry.moment),
        rows.entries().len(),
        rows.projects().len(),
    )
}

// The first start makes the entry, at its own moment. A later one makes none, its moment isn't before the
// entry's, and none is past the year 9998.
#[test]
fn empty_rows_get_their_first_entry(rt: HostRuntime) -> Result<(), Fail> {
    let (keeper, store) = empty_devices(rt.alloc(), &[])?;
    assert_eq!(rt; state(&keeper), (None, 0, 0));
    let (moment, keeper, store) = started(rt.alloc(), keeper, store, NOW)?;
    assert_eq!(rt; (moment, state(&keeper)), (NOW, (Some(NOW), 1, 1)));
    let (moment, keeper, store) = started(rt.alloc(), keeper, store, NOW - 1)?;
    assert_eq!(rt; (moment, state(&keeper)), (NOW, (Some(NOW), 1, 1)));
    let (moment, keeper, store) = started(rt.alloc(), keeper, store, NOW + 7)?;
    assert_eq!(rt; (moment, state(&keeper)), (NOW + 7, (Some(NOW), 1, 1)));
    let (moment, keeper, store) = started(rt.alloc(), keeper, store, u64::MAX)?;
    assert_eq!(rt;
        (moment, state(&keeper)),
        (253_370_764_799, (Some(NOW), 1, 1))
    );
    assert_eq!(rt; (keeper.script.calls(), store.script.calls()), (41, 0));
    let (keeper, store) = empty_devices(rt.alloc(), &[])?;
    let (moment, keeper, _store) = started(rt.alloc(), keeper, store, u64::MAX)?;
    assert_eq!(rt;
        (moment, state(&keeper)),
        (253_370_764_799, (Some(moment), 1, 1))
    );
    Ok(())
}

// Why a start is refused whose keeper fails at this call, with its rows then, and the moment of a start
// on the devices that were handed back.
fn fails_at(alloc: Global, call: u64) -> Result<(Option<StartFault>, usize, u64), Fail> {
    let (keeper, store) = empty_devices(alloc, &[call])?;
    match World::start(alloc, keeper, store, NOW) {
        Ok(world) => Ok((None, 0, world.moment())),
        Err(refused) => {
            let entries = refused.keeper.rows().entries().len();
            let (moment, _keeper, _store) = started(alloc, refused.keeper, refused.store, NOW + 1)?;
            Ok((Some(refused.fault), entries, moment))
        }
    }
}

// A start on a keeper without rows reads a page of each of ten tables, and commits.
#[test]
fn a_failing_keeper_is_told_and_passes(rt: HostRuntime) -> Result<(), Fail> {
    for call in 1..12 {
        let failed = (Some(StartFault::Failed), 0, NOW + 1);
        assert_eq!(rt; fails_at(rt.alloc(), call)?, failed, "at {call}");
    }
    assert_eq!(rt; fails_at(rt.alloc(), 12)?, (None, 0, NOW));
    Ok(())
}

// Adds an entry with its changes.
fn add(
    rows: &mut Rows,
    alloc: Global,
    number: u64,
    changes: ChangeList,
    kind: EntryKind,
) -> Result<(), Fail>
    requires { number ≤ 1000 }
{
    let entry = Entry {
        number,
        moment: NOW,
        kind,
    };
    Ok(rows.apply(alloc, &Batch { changes, entry })?)
}

// Rows of a registry in which so many uploads were begun.
fn with_uploads(alloc: Global, uploads: u64) -> Result<Rows, Fail>
    requires { uploads ≤ 900 }
{
    let mut rows = Rows::new(alloc);
    let project = ProjectName::read(alloc, b"library")?;
    let stamp = Stamp {
        number: 1,
        moment: NOW,
    };
    let changes = project_made(alloc, stamp, &project, -1)?;
    let kind = EntryKind::ProjectMade { project, limit: -1 };
    add(&mut rows, alloc, 1, changes, kind)?;
    for number in 2..2 + uploads {
        let name = Name::read(alloc, b"library/a")?;
        let stamp = Stamp {
            number,
            moment: NOW,
        };
        let changes = upload_begun(alloc, stamp, &name)?;
        add(
            &mut rows,
            alloc,
            number,
            changes,
            EntryKind::UploadBegun { name },
        )?;
    }
    Ok(rows)
}

#[test]
fn rows_on_three_pages_are_read(rt: HostRuntime) -> Result<(), Fail> {
    let rows = with_uploads(rt.alloc(), 600)?;
    assert_eq!(rt; fit(rt.alloc(), &rows)?, None);
    let mut keeper = MemKeeper::of(rt.alloc(), rows, Vec::new(rt.alloc()));
    let rows = read_rows(rt.alloc(), &mut keeper)?;
    assert_eq!(rt; (rows.uploads().len(), rows.entries().len()), (600, 601));
    assert_eq!(rt; rows.uploads().last().map(|upload| upload.id), Some(601));
    assert_eq!(rt; keeper.script.calls(), 14);
    Ok(())
}

// What a start says of these rows, where they don't fit.
fn misfit(alloc: Global, rows: Rows) -> Result<Option<StartFault>, Fail> {
    let Some(_misfit) = fit(alloc, &rows)? else {
        return Ok(None);
    };
    let keeper = MemKeeper::of(alloc, rows, Vec::new(alloc));
    let store = MemStore::new(alloc, Vec::new(alloc));
    match World::start(alloc, keeper, store, NOW) {
        Ok(_world) => Ok(None),
        Err(refused) => Ok(Some(refused.fault)),
    }
}

// The rows with this row, in place of the one that has its key.
fn with_row(mut rows: Rows, row: Row) -> Result<Rows, Fail> {
    rows.set(row)?;
    Ok(rows)
}

fn project_that_uses(alloc: Global, used: u128) -> Result<Row, Fail> {
    Ok(Row::Project(Project {
        name: ProjectName::read(alloc, b"library")?,
        limit: -1,
        used,
        rules: Rules {
            immutes: ImmuteList::of(Listed::new(alloc)),
            retains: RetainList::of(Listed::new(alloc)),
        },
        version: 1,
    }))
}

fn blob() -> Row {
    Row::Blob(Blob {
        digest: Digest([1; 32]),
        size: 3,
        status: Status::Idle,
        version: 1,
        touched: NOW,
        bar: 0,
    })
}

fn upload(alloc: Global, id: u64, offset: u64) -> Result<Row, Fail> {
    Ok(Row::Upload(Upload {
        id,
        name: Name::read(alloc, b"library/a")?,
        offset,
        touched: NOW,
        version: id,
    }))
}

#[test]
fn rows_that_do_not_fit_are_refused(rt: HostRuntime) -> Result<(), Fail> {
    let alloc = rt.alloc();
    let rows = [
        (
            with_row(with_uploads(alloc, 0)?, project_that_uses(alloc, 1)?)?,
            (Table::Project, 1),
        ),
        (with_row(Rows::new(alloc), blob())?, (Table::Blob, 1)),
        (
            with_row(with_uploads(alloc, 600)?, upload(alloc, 601, 1)?)?,
            (Table::Upload, 600),
        ),
    ];
    for (rows, (table, place)) in rows {
        let told = StartFault::Misfit(Misfit { table, place });
        assert_eq!(rt; misfit(alloc, rows)?, Some(told));
    }
    Ok(())
}

#[test]
fn start_faults_tell_why(rt: HostRuntime) -> Result<(), Fail> {
    let misfit = StartFault::Misfit(Misfit {
        table: Table::Snap,
        place: 12,
    });
    let text = format!(in rt.alloc(); "{misfit}, {}, {}", StartFault::Failed, StartFault::Memory)?;
    assert_eq!(rt;
        text.as_str(),
        "rows do not fit snap 12, rows failed, memory"
    );
    Ok(())
}
