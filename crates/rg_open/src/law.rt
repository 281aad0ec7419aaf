ghost use Rattle.std.specs.Prelude.{◌≡◌, ℕ};
ghost use Rattle.rg_host.specs.Image.{Image};
ghost use Rattle.rg_config.specs.Plans.{Planned};
ghost use Rattle.rg_open.specs.Opening.{IsFromIn};

/// From how many events an opening goes on is told by the image: there is just one such number.
pub fn law_from()
    ensures one { (plan : Planned) (v : Image) (from other : ℕ) → IsFromIn plan v from → IsFromIn plan v other → from ≡ other }
{}
