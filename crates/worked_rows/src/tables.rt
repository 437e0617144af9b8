// Rows of tables, boards and projections.
use crate::fault::Fault;
use crate::rows::{cut_at, numbered, pieces, push_number};
use khepri_terms::{Name, Path, Rec, Scalar};
use khepri_types::{Key, NodeView, Origin, Pattern, Payload, Projection, Row, RowChange, RowStep};
use machine_api::{Board, put};
use projected_table::{PlainBoard, Tables};
use projection_rules::{Projections, row_of};
use sqlite_items::Items;
use std::alloc::{AllocError, Global};

/// What the rows of a file change and ask, one after the other.
#[derive(Drop)]
pub struct Shelf {
    alloc: Global,
    tables: Tables,
    board: PlainBoard,
    projections: Projections,
}

impl Shelf {
    pub fn fresh(alloc: Global) -> Shelf {
        Shelf {
            alloc,
            tables: Tables::fresh(alloc),
            board: PlainBoard::fresh(alloc),
            projections: Projections::fresh(alloc),
        }
    }

    pub fn tell(&mut self, form: &[u8], given: &[u8], out: &mut Vec<u8>) -> Result<(), Fault> {
        let (verb, rest) = cut_at(b' ', given);
        match form {
            b"tables" => tell_tables(self.alloc, &mut self.tables, verb, rest, out),
            b"board" => tell_board(self.alloc, &mut self.board, verb, rest, out),
            b"projections" => tell_names(self.alloc, &mut self.projections, verb, rest, out),
            b"row" => tell_row(self.alloc, verb, rest, out),
            _ => Err(Fault::NoRow),
        }
    }
}

// The position after a step, or what a look-up shows.
fn tell_tables(
    alloc: Global,
    tables: &mut Tables,
    verb: &[u8],
    rest: &[u8],
    out: &mut Vec<u8>,
) -> Result<(), Fault> {
    match verb {
        b"fresh" => *tables = Tables::fresh(alloc),
        b"absorb" => tables.absorb(&step_of(alloc, rest)?)?,
        b"show" => return push_shown(alloc, tables, rest, out),
        _ => return Err(Fault::NoRow),
    }
    Ok(push_number(tables.position(), out)?)
}

// The position that a board shows, or what a look-up in its tables shows.
fn tell_board(
    alloc: Global,
    board: &mut PlainBoard,
    verb: &[u8],
    rest: &[u8],
    out: &mut Vec<u8>,
) -> Result<(), Fault> {
    match verb {
        b"put" => put_step(board, step_of(alloc, rest)?)?,
        b"publish" => board.publish()?,
        b"show" => return push_shown(alloc, board.tables(), rest, out),
        _ => return Err(Fault::NoRow),
    }
    Ok(push_number(board.tables().position(), out)?)
}

fn put_step(board: &mut PlainBoard, step: RowStep) -> Result<(), AllocError> {
    let position = step.position;
    put(board, step, position)
}

fn name_of(alloc: Global, text: &[u8]) -> Result<Name, Fault> {
    let (name, _) = Name::read(alloc, text)?;
    Ok(name)
}

fn path_of(alloc: Global, text: &[u8]) -> Result<Path, Fault> {
    let (path, _) = Path::read(alloc, text)?;
    Ok(path)
}

// Scalars with commas between them; `-` is none.
fn key_of(alloc: Global, text: &[u8]) -> Result<Key, Fault> {
    let mut scalars = Vec::new(alloc);
    if text != b"-".as_slice() {
        for part in pieces(alloc, b',', text)?.iter() {
            let (scalar, _) = Scalar::read(alloc, part)?;
            scalars.push(scalar)?;
        }
    }
    Ok(Key::from_vec(alloc, scalars))
}

// A position, whether the step has all tables, and changes with semicolons between them.
fn step_of(alloc: Global, text: &[u8]) -> Result<RowStep, Fault> {
    let (position, rest) = numbered(text)?;
    let (extent, changes) = cut_at(b' ', rest);
    Ok(RowStep {
        position,
        changes: changes_of(alloc, changes)?,
        whole: extent == b"whole".as_slice(),
    })
}

fn changes_of(alloc: Global, text: &[u8]) -> Result<Items<RowChange>, Fault> {
    let mut changes = Items::new(alloc);
    for change in pieces(alloc, b';', text)?.iter() {
        changes.push(change_of(alloc, change)?)?;
    }
    Ok(changes)
}

fn change_of(alloc: Global, text: &[u8]) -> Result<RowChange, Fault> {
    let (verb, rest) = cut_at(b' ', text);
    let (name, rest) = cut_at(b' ', rest);
    let name = name_of(alloc, name)?;
    match verb {
        b"set" => Ok(RowChange::AddTable { name, bag: false }),
        b"bag" => Ok(RowChange::AddTable { name, bag: true }),
        b"gone" => Ok(RowChange::DropTable { name }),
        b"put" => put_row(alloc, name, rest),
        b"cut" => drop_row(alloc, name, rest),
        _ => Err(Fault::NoRow),
    }
}

// A path, a key and a value.
fn put_row(alloc: Global, name: Name, text: &[u8]) -> Result<RowChange, Fault> {
    let (path, rest) = cut_at(b' ', text);
    let (key, value) = cut_at(b' ', rest);
    let row = Row {
        path: path_of(alloc, path)?,
        key: key_of(alloc, key)?,
        value: key_of(alloc, value)?,
    };
    Ok(RowChange::PutRow { name, row })
}

// A key and a path.
fn drop_row(alloc: Global, name: Name, text: &[u8]) -> Result<RowChange, Fault> {
    let (key, path) = cut_at(b' ', text);
    Ok(RowChange::DropRow {
        name,
        key: key_of(alloc, key)?,
        path: path_of(alloc, path)?,
    })
}

// What a look-up of a table and a key shows: the key, path and value of each row, or `none`.
fn push_shown(alloc: Global, tables: &Tables, text: &[u8], out: &mut Vec<u8>) -> Result<(), Fault> {
    let (name, key) = cut_at(b' ', text);
    match tables.rows(&name_of(alloc, name)?, &key_of(alloc, key)?) {
        Some(rows) => Ok(push_rows(rows, out)?),
        None => Ok(out.extend_from_slice(b"none")?),
    }
}

fn push_rows(rows: &[Row], out: &mut Vec<u8>) -> Result<(), AllocError> {
    for row in rows {
        push_list(&row.key, out)?;
        row.path.print(out)?;
        push_list(&row.value, out)?;
    }
    Ok(())
}

fn push_list(key: &Key, out: &mut Vec<u8>) -> Result<(), AllocError> {
    out.extend_from_slice(b"[")?;
    for (i, scalar) in key.as_slice().iter().enumerate() {
        if 0 < i {
            out.extend_from_slice(b",")?;
        }
        scalar.print(out)?;
    }
    out.extend_from_slice(b"]")
}

// Whether a projection came or went, and the names of those that there are then.
fn tell_names(
    alloc: Global,
    all: &mut Projections,
    verb: &[u8],
    name: &[u8],
    out: &mut Vec<u8>,
) -> Result<(), Fault> {
    let is_done = match verb {
        b"add" => all.add(projection(alloc, name)?)?,
        b"remove" => all.remove(&name_of(alloc, name)?),
        _ => return Err(Fault::NoRow),
    };
    out.extend_from_slice(if is_done { b"yes" } else { b"no" })?;
    Ok(push_names(all, out)?)
}

fn push_names(all: &Projections, out: &mut Vec<u8>) -> Result<(), AllocError> {
    for i in 0..all.len() {
        out.extend_from_slice(b" ")?;
        out.extend_from_slice(all.at(i).name.bytes())?;
    }
    Ok(())
}

fn root_pattern(alloc: Global) -> Pattern {
    let parts = Items::new(alloc);
    Pattern::new(parts)
}

// Rows of the second name of a path and the field `k`, which show the version.
fn projection(alloc: Global, name: &[u8]) -> Result<Projection, Fault> {
    let mut keys = Items::new(alloc);
    keys.push(Origin::Seg(2))?;
    keys.push(Origin::Field(name_of(alloc, b"k")?))?;
    let mut values = Items::new(alloc);
    values.push(Origin::Version)?;
    Ok(Projection {
        name: name_of(alloc, name)?,
        bag: true,
        pattern: root_pattern(alloc),
        keys,
        values,
    })
}

// The key and value of the row of a path whose node has these fields, or `none`.
fn tell_row(alloc: Global, path: &[u8], fields: &[u8], out: &mut Vec<u8>) -> Result<(), Fault> {
    let (rec, _) = Rec::read(alloc, fields)?;
    let payload = Payload::Fields(rec);
    let node = NodeView {
        name: None,
        payload: &payload,
        pv: 3,
        cv: 1,
        kids: 0,
        watches: &[],
    };
    let path = path_of(alloc, path)?;
    push_row(row_of(alloc, &projection(alloc, b"p")?, &path, &node)?, out)
}

fn push_row(row: Option<Row>, out: &mut Vec<u8>) -> Result<(), Fault> {
    match row {
        Some(row) => {
            push_list(&row.key, out)?;
            Ok(push_list(&row.value, out)?)
        }
        None => Ok(out.extend_from_slice(b"none")?),
    }
}
