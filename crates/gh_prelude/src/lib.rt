//! The text of the module Prelude, which each program's files are linked with.
#![tactic(auto)]

ghost use Rattle.std.specs.Prelude.{◌≡◌};
ghost use Rattle.gh_prelude.specs.Text.{prelude_lines, ended};

const TEXT: &[u8] = b"module Prelude where
infixr 9 .
infixl 7 *, `quot`, `rem`
infixl 6 +, -
infixr 5 ++, :*:
infix 4 ==, /=, <, <=, >, >=
infixr 3 &&
infixr 2 ||
infixr 0 $
type String = [Char]
data Bool = False | True
data Maybe a = Nothing | Just a
data Either a b = Left a | Right b
data Unit = Unit
data Sum a b = Inl a | Inr b
data Prod a b = a :*: b
newtype Con a = Con a
data ConDescr = ConDescr [Char] Int
conName :: ConDescr -> [Char]
conName (ConDescr n _) = n
conArity :: ConDescr -> Int
conArity (ConDescr _ k) = k
id :: a -> a
id x = x
const :: a -> b -> a
const x _ = x
flip :: (a -> b -> c) -> b -> a -> c
flip f x y = f y x
(.) :: (b -> c) -> (a -> b) -> a -> c
(f . g) x = f (g x)
($) :: (a -> b) -> a -> b
f $ x = f x
not :: Bool -> Bool
not True = False
not False = True
(&&), (||) :: Bool -> Bool -> Bool
True && x = x
False && _ = False
True || _ = True
False || x = x
otherwise :: Bool
otherwise = True
(/=), (<=), (>), (>=) :: Int -> Int -> Bool
x /= y = not (x == y)
x <= y = not (y < x)
x > y = y < x
x >= y = not (x < y)
negate :: Int -> Int
negate x = 0 - x
fst :: (a, b) -> a
fst (x, _) = x
snd :: (a, b) -> b
snd (_, y) = y
(++) :: [a] -> [a] -> [a]
[] ++ ys = ys
(x : xs) ++ ys = x : (xs ++ ys)
map :: (a -> b) -> [a] -> [b]
map _ [] = []
map f (x : xs) = f x : map f xs
filter :: (a -> Bool) -> [a] -> [a]
filter _ [] = []
filter p (x : xs)
  | p x = x : filter p xs
  | otherwise = filter p xs
foldr :: (a -> b -> b) -> b -> [a] -> b
foldr _ z [] = z
foldr f z (x : xs) = f x (foldr f z xs)
concat :: [[a]] -> [a]
concat = foldr (++) []
length :: [a] -> Int
length [] = 0
length (_ : xs) = 1 + length xs
maybe :: b -> (a -> b) -> Maybe a -> b
maybe z _ Nothing = z
maybe _ f (Just x) = f x
either :: (a -> c) -> (b -> c) -> Either a b -> c
either f _ (Left x) = f x
either _ g (Right y) = g y
";

/// The source text of the module Prelude as bytes: 78 lines, each ended by a line feed. It takes no memory.
///
/// Its functions are those of these names in the standard Prelude of the Haskell 98 Report (chapter 8), at `Int` where
/// the Report has classes; `Unit`, `Sum`, `Prod`, `Con` and `ConDescr` are the types over which generic functions are
/// defined (Hinze, "Polytypic values possess polykinded types"; Löh, "Exploring Generic Haskell").
pub fn prelude_text() -> &'static [u8]
    ensures { result.now ≡ ended prelude_lines }
{
    TEXT
}

#[cfg(test)]
mod tests {
    use super::prelude_text;

    // The 64-bit FNV-1a digest.
    fn digest(bytes: &[u8]) -> u64 {
        let mut hash: u64 = 0xcbf2_9ce4_8422_2325;
        for byte in bytes {
            hash = (hash ^ u64::from(*byte)).wrapping_mul(0x0100_0000_01b3);
        }
        hash
    }

    // Length and digest were worked out by a script that does not use this crate.
    #[test]
    fn has_the_length_and_digest(rt: HostRuntime) {
        let text = prelude_text();
        assert_eq!(rt; text.len(), 1805);
        assert_eq!(rt; digest(text), 0x84ae_f60a_a4fe_ca79);
    }

    #[test]
    fn ends_in_one_line_feed(rt: HostRuntime) {
        let text = prelude_text();
        assert!(rt; text.ends_with(b"either _ g (Right y) = g y\n"));
        assert!(rt; text.starts_with(b"module Prelude where\ninfixr 9 .\n"));
    }
}
