// What a projection takes from a node.
ghost use Rattle.std.specs.Prelude.{◌≡◌, ◌<◌, ◌≤◌, List, IfOk, Some, None};
ghost use Rattle.khepri_types.specs.Views.{node_of};
ghost use Rattle.khepri_types.specs.Projecting.{source, sources, row};
ghost use Rattle.projection_rules.specs.Sources.{list_of};

use khepri_terms::{Bytes, Path, Scalar};
use khepri_types::{Key, NodeView, Origin, Payload, Projection, Row};
use std::alloc::{AllocError, Global};

// One source.
fn source_of(
    alloc: Global,
    origin: &Origin,
    path: &Path,
    node: &NodeView,
) -> Result<Option<Scalar>, AllocError>
    ensures { IfOk result (λ s. s ≡ source path.now (node_of node.now) origin.now) }
{
    match origin {
        Origin::Seg(place) => {
            let place = *place as usize;
            if place == 0 {
                return Ok(None);
            }
            if path.len() < place {
                return Ok(None);
            }
            Ok(Some(Scalar::Text(Bytes::from_slice(alloc, path.name(place - 1).bytes())?)))
        }
        Origin::Field(key) => match node.payload {
            Payload::Empty => Ok(None),
            Payload::Proc(_) => Ok(None),
            Payload::Fields(rec) => match rec.field(key.bytes()) {
                None => Ok(None),
                Some(value) => Ok(Some(value.copy()?)),
            },
        },
        Origin::Version => Ok(Some(Scalar::Int(node.pv.min(i64::MAX as u64) as i64))),
    }
}

// All sources.
fn sources_of(
    alloc: Global,
    origins: &[Origin],
    path: &Path,
    node: &NodeView,
) -> Result<Option<Vec<Scalar>>, AllocError>
    ensures { IfOk result (λ l. list_of l ≡ sources path.now (node_of node.now) origins.now) }
{
    let mut all = Vec::with_capacity(alloc, origins.len())?;
    'origins: for origin in origins {
        match source_of(alloc, origin, path, node)? {
            None => return Ok(None),
            Some(value) => all.push(value)?,
        }
    }
    Ok(Some(all))
}

/// The row of a node: `None` exactly where a source is missing.
pub fn row_of(
    alloc: Global,
    projection: &Projection,
    path: &Path,
    node: &NodeView,
) -> Result<Option<Row>, AllocError>
    ensures { IfOk result (λ r. r ≡ row projection.now path.now (node_of node.now)) }
{
    let Some(key) = sources_of(alloc, projection.keys.as_slice(), path, node)? else {
        return Ok(None);
    };
    let Some(value) = sources_of(alloc, projection.values.as_slice(), path, node)? else {
        return Ok(None);
    };
    Ok(Some(Row {
        path: path.copy()?,
        key: Key::from_vec(alloc, key),
        value: Key::from_vec(alloc, value),
    }))
}
