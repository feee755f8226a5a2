/// A value with a name that stays and a past that grows.
pub trait History: Drop {
    ghost use Rattle.std.specs.Prelude.{List};

    /// What the value is called.
    type Name;

    /// What its past consists of.
    type Item;

    ghost name: { Self → Self.Name };

    /// All that happened to the value, the newest first.
    ghost past: { Self → List Self.Item };
}
