// The writer's checks of the slices that a drawing is handed in: whether they fit one another, 7, and 8. (5, 6 and 15 look at the
// settings and at counts alone: `file_checks` has them.)
#![tactic(auto)]

ghost use Rattle.std.specs.Prelude.{◌≡◌, ◌+◌, ◌-◌, ◌*◌, ◌/◌, ◌≤◌, length, eqb};
ghost use Rattle.drawing_spec.specs.Read.{total};
ghost use Rattle.writer_checks.specs.Checked.{all_on, end_in, link_in, links_in};

// Whether there are two coordinates for each point of the lines.
pub fn points_fit(sizes: &[u32], coordinates: &[u64]) -> bool
    ensures { result ≡ eqb (2 * total sizes.now) (length coordinates.now) }
{
    let mut left = coordinates.len();
    for &points in sizes {
        let both = 2 * points as usize;
        if left < both {
            return false;
        }
        left -= both;
    }
    left == 0
}

// Check 7, of a slice of coordinates.
pub fn all_on(words: &[u64]) -> bool
    ensures { result ≡ all_on words.now }
{
    for i in 0..words.len() {
        let on = grid::on_grid(words[i]);
        if !on {
            return false;
        }
    }
    true
}

// Check 8, of one end of a link, of a link, and of all. The highest segment of a line is two less than its points, and 0 for a dot.
#[tactic(auto, unfolding(crate::specs::Checked::end_in))]
fn end_in(sizes: &[u32], line: u32, segment: u32) -> bool
    ensures { result ≡ end_in sizes.now line segment }
{
    match sizes.get(line as usize) {
        Some(points) => 0 < *points && segment <= points.saturating_sub(2),
        None => false,
    }
}

fn link_in(sizes: &[u32], link: &[u32; 4]) -> bool
    ensures { result ≡ link_in sizes.now link.now 0 }
{
    end_in(sizes, link[0], link[1]) && end_in(sizes, link[2], link[3])
}

pub fn links_in(sizes: &[u32], segments: &[u32]) -> bool
    ensures { result ≡ links_in sizes.now segments.now (length segments.now / 4) 0 }
{
    let (links, _) = segments.as_chunks::<4>();
    links.iter().all(|link| link_in(sizes, link))
}
