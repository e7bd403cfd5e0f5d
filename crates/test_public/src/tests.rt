//! What the plain list of facts answers, a slice that is written, one that is answered by points and declaration alone, a script that is
//! fed in pieces, and a host that lacks a file.
ghost use Rattle.std.specs.Prelude.{◌≡◌, [], ◌∷◌, IfOk};
ghost use Rattle.fact_model.specs.declared.slice.Column.TheVariants.{Sum, Count};

use cube_schema::Schema;
use fact_model::{
    Column, ColumnList, Fact, FactList, ListOf, Memory, Row, Slice, Text, Value, slow_slice,
};
use forest_open::{init, open_store};
use forest_root::Store;
use page_cache::Pages;
use script_lang::{Command, Lines};
use site_core::Site;
use site_folder::FolderSite;
use site_mem::MemorySite;
use slice_exec::{answer, rows_text};
use slice_lang::{read_slice, write_slice};
use std::alloc::Global;
use std::process::Abort;
use std::test::Fail;
use test_host::TellingHost;
use text_hash::Seed;
use view_route::route;

/// A sale of so many of a part in a year.
fn sale(alloc: Global, part: &str, year: u64, count: i128) -> Result<Fact, Memory>
    ensures { IfOk result (λ fact. fact.measures ≡ count ∷ []) }
{
    let mut values = ListOf::new(alloc);
    values.push(Value::Word(Text::from_bytes(alloc, part.as_bytes())?))?;
    values.push(Value::Number(year))?;
    let mut measures = ListOf::new(alloc);
    measures.push(count)?;
    Ok(Fact { values, measures })
}

fn sum_and_count(alloc: Global) -> Result<ColumnList, Memory>
    ensures { IfOk result (λ columns. columns ≡ Sum 0 ∷ Count ∷ []) }
{
    let mut columns = ListOf::new(alloc);
    columns.push(Column::Sum(0))?;
    columns.push(Column::Count)?;
    Ok(columns)
}

fn row_is(rt: &impl Abort, row: &Row, year: u64, numbers: &[i128]) {
    assert_eq!(rt; row.key.as_slice(), [Value::Number(year)].as_slice());
    assert_eq!(rt; row.numbers.as_slice(), numbers);
}

#[test]
fn slow_slice_by_year(rt: HostRuntime) -> Result<(), Fail> {
    let alloc = rt.alloc();
    let mut facts: FactList = ListOf::new(alloc);
    facts.push(sale(alloc, "bolt", 1997, 5)?)?;
    facts.push(sale(alloc, "nut", 1997, -2)?)?;
    facts.push(sale(alloc, "bolt", 1998, 4)?)?;
    let mut group = ListOf::new(alloc);
    group.push(1)?;
    let slice = Slice {
        columns: sum_and_count(alloc)?,
        group,
        conds: ListOf::new(alloc),
    };
    let rows = slow_slice(alloc, &facts, &slice)?;
    assert_eq!(rt; rows.as_slice().len(), 2);
    row_is(&rt, &rows.as_slice()[0], 1997, &[3, 2]);
    row_is(&rt, &rows.as_slice()[1], 1998, &[4, 1]);
    Ok(())
}

#[test]
fn the_slice_of_an_example_is_written(rt: HostRuntime) -> Result<(), Fail> {
    let alloc = rt.alloc();
    let schema = Schema::read(
        alloc,
        b"attr part text\nattr year number\nmeasure qty\nview year\n",
    )?;
    let slice = read_slice(alloc, &schema, b"sum(qty),count by year")?;
    let text = write_slice(alloc, &schema, &slice)?;
    assert_eq!(rt; text.as_bytes(), b"sum(qty),count by year".as_slice());
    Ok(())
}

#[test]
fn of_views_with_as_few_points_the_first_is_the_route(rt: HostRuntime) -> Result<(), Fail> {
    let alloc = rt.alloc();
    let schema = Schema::read(
        alloc,
        b"attr part text\nattr year number\nmeasure qty\nview part,year\nview year,part\nview year\n",
    )?;
    let mut counts = [0; 32];
    counts[0] = 3;
    counts[1] = 3;
    counts[2] = 2;
    let by_part = read_slice(alloc, &schema, b"count by year where part=bolt")?;
    assert_eq!(rt; route(&schema, &counts, &by_part), Some(0));
    let by_year = read_slice(alloc, &schema, b"count by year")?;
    assert_eq!(rt; route(&schema, &counts, &by_year), Some(2));
    Ok(())
}

/// The sums by year over a store, as text.
fn sums_by_year(alloc: Global, site: &mut MemorySite, store: &Store) -> Result<Text, Fail> {
    let slice = read_slice(alloc, &store.forest.schema, b"sum(qty) by year")?;
    let mut pages = Pages::new(alloc, 1)?;
    let rows = answer(alloc, site, &mut pages, store, &slice)?;
    Ok(rows_text(alloc, &rows)?)
}

/// Declares a schema in files that keep none.
fn declared(alloc: Global, site: &mut MemorySite) -> Result<Store, Fail> {
    let schema = Schema::read(alloc, b"attr year number\nmeasure qty\nview year\n")?;
    match open_store(alloc, Seed::new(1), site)? {
        None => Ok(init(alloc, Seed::new(1), site, schema)?),
        Some(store) => Ok(store),
    }
}

#[test]
fn without_facts_a_slice_has_no_rows(rt: HostRuntime) -> Result<(), Fail> {
    let alloc = rt.alloc();
    let mut site = MemorySite::new(alloc);
    let store = declared(alloc, &mut site)?;
    let text = sums_by_year(alloc, &mut site, &store);
    assert_eq!(rt; text?.as_bytes(), b"rows 0\n".as_slice());
    Ok(())
}

#[test]
fn a_script_is_fed_in_pieces(rt: HostRuntime) -> Result<(), Fail> {
    let mut lines = Lines::new(rt.alloc());
    lines.feed(b"sta")?;
    assert!(rt; lines.next_command()?.is_none());
    lines.feed(b"tus\nload 7\nend\nfin")?;
    assert!(rt; matches!(lines.next_command()?, Some(Command::Status)));
    assert!(rt;
        matches!(
            lines.next_command()?,
            Some(Command::LoadNumbered { number: 7, .. })
        )
    );
    assert!(rt; lines.next_command()?.is_none());
    lines.end();
    assert!(rt; matches!(lines.next_command()?, Some(Command::Unknown)));
    assert!(rt; lines.next_command()?.is_none());
    Ok(())
}

#[test]
fn a_file_that_is_not_there_is_made_by_its_first_write(rt: HostRuntime) -> Result<(), Fail> {
    let memory = MemorySite::new(rt.alloc());
    let mut site = FolderSite::new(TellingHost::without(memory, 3, 1));
    let mut into = [0u8; 8];
    assert_eq!(rt; site.length(1), Ok(0));
    assert_eq!(rt; site.read(1, 0, &mut into), Ok(0));
    assert_eq!(rt; site.sync(), Ok(()));
    assert_eq!(rt; site.write(1, 0, b"bolts"), Ok(()));
    assert_eq!(rt; site.sync(), Ok(()));
    assert_eq!(rt; site.read(1, 0, &mut into), Ok(5));
    assert_eq!(rt; &into[..5], b"bolts".as_slice());
    Ok(())
}
