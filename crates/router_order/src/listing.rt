//! Attachments that are listed by activity, then by the path of the entity: one is found by halving, and put in its place.
ghost use Rattle.std.specs.Prelude.{◌≡◌, ◌≤◌, ◌<◌, ◌+◌, ◌++◌, ◌∷◌, [], length, IsTrue, IfSome, vec_capacity, vec_len};
ghost use Rattle.std.specs.List.{insert, prefix_len, position_from};
ghost use Rattle.rows_sorted.specs.Orders.{put};
ghost use Rattle.router_state.specs.Contexts.{is_link};
ghost use Rattle.entity_tree.specs.Kept.{is_entity};
ghost use Rattle.router_order.specs.Listed.{IsListing, listed_before};

use entity_tree::Tree;
use router_state::Link;

pub fn is_before(tree: &Tree, row: &Link, link: &Link) -> bool
    ensures { result ≡ listed_before tree.now.rows row.now link.now }
{
    row.activity.0 < link.activity.0
        || (row.activity.0 == link.activity.0 && tree.compare(row.entity, link.entity).is_lt())
}

/// How many rows are listed before the attachment.
fn count_before(tree: &Tree, rows: &[Link], link: &Link) -> usize
    requires { IsListing tree.now.rows rows.now }
    ensures count { result ≡ prefix_len (λ row. listed_before tree.now.rows row link.now) rows.now }
    ensures within { result ≤ length rows.now }
{
    rows.partition_point(|row| is_before(tree, row, link))
}

fn is_same(row: &Link, link: &Link) -> bool
    ensures { result ≡ is_link link.now.entity.0 link.now.activity.0 row.now }
{
    row.entity.0 == link.entity.0 && row.activity.0 == link.activity.0
}

/// Where the attachment is listed.
fn place_of(tree: &Tree, rows: &[Link], link: &Link) -> Option<usize>
    requires { IsListing tree.now.rows rows.now }
    ensures place { result ≡ position_from (is_link link.now.entity.0 link.now.activity.0) 0 rows.now }
    ensures within { IfSome result (λ place. place < length rows.now) }
{
    let place = count_before(tree, rows, link);
    match rows.get(place) {
        Some(row) => {
            if is_same(row, link) {
                Some(place)
            } else {
                None
            }
        }
        None => None,
    }
}

fn insert_row(rows: &mut Vec<Link>, place: usize, row: Link)
    requires within { place ≤ vec_len rows.old }
    requires room { vec_len rows.old < vec_capacity rows.old }
    ensures items { rows.new.items ≡ insert rows.old.items place row }
    ensures length { vec_len rows.new ≤ vec_len rows.old + 1 }
    ensures capacity { vec_capacity rows.old ≤ vec_capacity rows.new }
{
    match rows.insert(place, row) {
        Ok(()) => {}
        Err(_) => unreachable!(),
    }
}

/// The attachment goes behind the others.
pub fn push_link(rows: &mut Vec<Link>, row: Link)
    requires room { vec_len rows.old < vec_capacity rows.old }
    ensures items { rows.new.items ≡ rows.old.items ++ row ∷ [] }
    ensures length { vec_len rows.new ≡ vec_len rows.old + 1 }
    ensures capacity { vec_capacity rows.old ≤ vec_capacity rows.new }
{
    match rows.push(row) {
        Ok(()) => {}
        Err(_) => unreachable!(),
    }
}

/// The attachment stands in its place.
pub fn put_link(tree: &Tree, rows: &mut Vec<Link>, link: Link)
    requires listing { IsListing tree.now.rows rows.old.items }
    requires there { IsTrue (is_entity tree.now.rows link.entity.0) }
    requires room { vec_len rows.old < vec_capacity rows.old }
    ensures items { rows.new.items ≡ put (listed_before tree.now.rows) link rows.old.items }
    ensures length { vec_len rows.new ≤ vec_len rows.old + 1 }
    ensures capacity { vec_capacity rows.old ≤ vec_capacity rows.new }
{
    tree.ordered();
    match place_of(tree, rows, &link) {
        Some(_) => {}
        None => {
            let place = count_before(tree, rows, &link);
            insert_row(rows, place, link);
        }
    }
}
