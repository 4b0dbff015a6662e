//! The interactions of some users, found by the numbers of these.
ghost use Rattle.std.specs.Prelude.{◌≡◌, ℕ, ◌<◌, ◌==◌, ◌||◌, ◌++◌, ◌∷◌, [], false, length, filter, if◌then◌else◌, slice_index, slice_index_or, All, IfOk, OnOk};
ghost use Rattle.gj_base.specs.Numbered.{named_by};
ghost use Rattle.gj_base.specs.declared.side.Side.TheVariants as sides;
ghost use Rattle.gj_compact.specs.Turns.{plain};
ghost use Rattle.gj_directory.specs.Picking.{AreMarks, is_marked};
ghost use Rattle.gj_directory.specs.Showing.{IsItem};
ghost use Rattle.gj_directory.specs.Sides.{AreNamed, items_of};

use gj_base::{Item, Mask, Memory};
use gj_compact::Edge;
use gj_names::Names;
use std::alloc::Global;

/// Marks the number of the user.
fn mark(marks: &mut Vec<bool>, names: &Names, user: u64)
    requires { length marks.old.items ≡ length names.now.ids }
    ensures len { length marks.new.items ≡ length marks.old.items }
    ensures marked { (v : ℕ) → v < length names.now.ids
        → slice_index_or marks.new.items v false ≡ (slice_index_or marks.old.items v false || (user == slice_index names.now.ids v)) }
{
    if let Some(v) = names.find(user) {
        marks[v as usize] = true;
    }
}

/// For each number, whether it is that of one of the users.
pub fn marks_of(alloc: Global, names: &Names, users: &[u64]) -> Result<Vec<bool>, Memory>
    ensures { IfOk result (λ marks. AreMarks names.now.ids users.now marks.items) }
{
    let Ok(mut marks) = vec![in alloc; false; names.len() as usize] else {
        return Err(Memory);
    };
    for user in users {
        mark(&mut marks, names, *user);
    }
    Ok(marks)
}

/// Puts the interaction behind the others, by its identifiers, where it is eligible and its user is marked.
#[inline]
fn keep_marked(
    picked: &mut Vec<Item>,
    edge: Edge,
    users: &Names,
    posts: &Names,
    marks: &[bool],
    mask: Mask,
) -> Result<(), Memory>
    requires marks { length marks.now ≡ length users.now.ids }
    requires user { edge.user < length users.now.ids }
    requires post { edge.post < length posts.now.ids }
    requires sane { IsItem (named_by users.now.ids posts.now.ids (plain edge)) }
    ensures { OnOk result (picked.new.items ≡ (if is_marked marks.now mask edge
        then picked.old.items ++ named_by users.now.ids posts.now.ids (plain edge) ∷ []
        else picked.old.items)) }
{
    // Few users are marked, so what the mask lets through is seldom asked.
    if marks[edge.user as usize] && mask.lets(edge.kind, edge.at) {
        let item = Item {
            user: users.id_of(edge.user),
            post: posts.id_of(edge.post),
            kind: edge.kind,
            at: edge.at,
        };
        picked.push(item).map_err(|_| Memory)?;
    }
    Ok(())
}

/// Puts those interactions that are eligible and of a marked user behind the others, by their identifiers.
pub fn pick_marked(
    picked: &mut Vec<Item>,
    edges: &[Edge],
    users: &Names,
    posts: &Names,
    marks: &[bool],
    mask: Mask,
) -> Result<(), Memory>
    requires marks { length marks.now ≡ length users.now.ids }
    requires users { AreNamed users.now.ids sides.User edges.now }
    requires posts { AreNamed posts.now.ids sides.Post edges.now }
    requires sane { All IsItem (items_of users.now.ids posts.now.ids edges.now) }
    ensures { OnOk result (picked.new.items ≡ picked.old.items ++ items_of users.now.ids posts.now.ids (filter (is_marked marks.now mask) edges.now)) }
{
    for edge in edges {
        keep_marked(picked, *edge, users, posts, marks, mask)?;
    }
    Ok(())
}
