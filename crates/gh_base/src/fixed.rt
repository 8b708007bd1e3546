// The names that every table begins with, and their numbers.
use crate::names::NameId;

/// The texts that each table of names begins with, each once: the reserved words, the reserved operators and the
/// marks (Haskell 98 Report, 2.2 to 2.4, and the brackets of generic calls), the words that mean something in
/// their place only, and the names that the compiler gives or looks for. The place of a text, from 0, is its number.
pub const FIXED: [&[u8]; 128] = [
    b"case",
    b"class",
    b"data",
    b"default",
    b"deriving",
    b"do",
    b"else",
    b"if",
    b"import",
    b"in",
    b"infix",
    b"infixl",
    b"infixr",
    b"instance",
    b"let",
    b"module",
    b"newtype",
    b"of",
    b"then",
    b"type",
    b"where",
    b"_",
    b"..",
    b":",
    b"::",
    b"=",
    b"\\",
    b"|",
    b"<-",
    b"->",
    b"@",
    b"~",
    b"=>",
    b"(",
    b")",
    b",",
    b";",
    b"[",
    b"]",
    b"`",
    b"{",
    b"}",
    b"{|",
    b"|}",
    b"as",
    b"qualified",
    b"hiding",
    b"extends",
    b"Main",
    b"main",
    b"Prelude",
    b"-",
    b"+",
    b"*",
    b"quot",
    b"rem",
    b"==",
    b"<",
    b"eqChar",
    b"ord",
    b"chr",
    b"showInt",
    b"error",
    b".",
    b"++",
    b":*:",
    b"/=",
    b"<=",
    b">",
    b">=",
    b"&&",
    b"||",
    b"$",
    b"Int",
    b"Char",
    b"String",
    b"Bool",
    b"Maybe",
    b"Either",
    b"Unit",
    b"Sum",
    b"Prod",
    b"Con",
    b"ConDescr",
    b"False",
    b"True",
    b"Nothing",
    b"Just",
    b"Left",
    b"Right",
    b"Inl",
    b"Inr",
    b"conName",
    b"conArity",
    b"id",
    b"const",
    b"flip",
    b"not",
    b"otherwise",
    b"negate",
    b"fst",
    b"snd",
    b"map",
    b"filter",
    b"foldr",
    b"concat",
    b"length",
    b"maybe",
    b"either",
    b"[]",
    b"()",
    b"(,)",
    b"(,,)",
    b"(,,,)",
    b"(,,,,)",
    b"(,,,,,)",
    b"(,,,,,,)",
    b"List",
    b"Nil",
    b"Cons",
    b"Tuple0",
    b"Tuple2",
    b"Tuple3",
    b"Tuple4",
    b"Tuple5",
    b"Tuple6",
    b"Tuple7",
    b"EP",
];

/// `case`: reserved word.
pub const CASE: NameId = NameId(0);

/// `class`: reserved word.
pub const CLASS: NameId = NameId(1);

/// `data`: reserved word.
pub const DATA: NameId = NameId(2);

/// `default`: reserved word.
pub const DEFAULT: NameId = NameId(3);

/// `deriving`: reserved word.
pub const DERIVING: NameId = NameId(4);

/// `do`: reserved word.
pub const DO: NameId = NameId(5);

/// `else`: reserved word.
pub const ELSE: NameId = NameId(6);

/// `if`: reserved word.
pub const IF: NameId = NameId(7);

/// `import`: reserved word.
pub const IMPORT: NameId = NameId(8);

/// `in`: reserved word.
pub const IN: NameId = NameId(9);

/// `infix`: reserved word.
pub const INFIX: NameId = NameId(10);

/// `infixl`: reserved word.
pub const INFIXL: NameId = NameId(11);

/// `infixr`: reserved word.
pub const INFIXR: NameId = NameId(12);

/// `instance`: reserved word.
pub const INSTANCE: NameId = NameId(13);

/// `let`: reserved word.
pub const LET: NameId = NameId(14);

/// `module`: reserved word.
pub const MODULE: NameId = NameId(15);

/// `newtype`: reserved word.
pub const NEWTYPE: NameId = NameId(16);

/// `of`: reserved word.
pub const OF: NameId = NameId(17);

/// `then`: reserved word.
pub const THEN: NameId = NameId(18);

/// `type`: reserved word.
pub const TYPE: NameId = NameId(19);

/// `where`: reserved word.
pub const WHERE: NameId = NameId(20);

/// `_`: reserved word.
pub const UNDERSCORE: NameId = NameId(21);

/// `..`: reserved operator.
pub const DOT_DOT: NameId = NameId(22);

/// `:`: reserved operator.
pub const COLON: NameId = NameId(23);

/// `::`: reserved operator.
pub const DOUBLE_COLON: NameId = NameId(24);

/// `=`: reserved operator.
pub const EQUALS: NameId = NameId(25);

/// `\`: reserved operator.
pub const BACKSLASH: NameId = NameId(26);

/// `|`: reserved operator.
pub const BAR: NameId = NameId(27);

/// `<-`: reserved operator.
pub const LEFT_ARROW: NameId = NameId(28);

/// `->`: reserved operator.
pub const RIGHT_ARROW: NameId = NameId(29);

/// `@`: reserved operator.
pub const AT: NameId = NameId(30);

/// `~`: reserved operator.
pub const TILDE: NameId = NameId(31);

/// `=>`: reserved operator.
pub const DOUBLE_ARROW: NameId = NameId(32);

/// `(`: mark.
pub const OPEN_PARENTHESIS: NameId = NameId(33);

/// `)`: mark.
pub const CLOSE_PARENTHESIS: NameId = NameId(34);

/// `,`: mark.
pub const COMMA: NameId = NameId(35);

/// `;`: mark.
pub const SEMICOLON: NameId = NameId(36);

/// `[`: mark.
pub const OPEN_BRACKET: NameId = NameId(37);

/// `]`: mark.
pub const CLOSE_BRACKET: NameId = NameId(38);

/// ```: mark.
pub const BACKQUOTE: NameId = NameId(39);

/// `{`: mark.
pub const OPEN_BRACE: NameId = NameId(40);

/// `}`: mark.
pub const CLOSE_BRACE: NameId = NameId(41);

/// `{|`: mark.
pub const OPEN_BANANA: NameId = NameId(42);

/// `|}`: mark.
pub const CLOSE_BANANA: NameId = NameId(43);

/// `as`: word that means something in its place only.
pub const AS: NameId = NameId(44);

/// `qualified`: word that means something in its place only.
pub const QUALIFIED: NameId = NameId(45);

/// `hiding`: word that means something in its place only.
pub const HIDING: NameId = NameId(46);

/// `extends`: word that means something in its place only.
pub const EXTENDS: NameId = NameId(47);

/// `Main`: module.
pub const MAIN_MODULE: NameId = NameId(48);

/// `main`: value that a run evaluates.
pub const MAIN: NameId = NameId(49);

/// `Prelude`: module.
pub const PRELUDE: NameId = NameId(50);

/// `-`: primitive of the Prelude.
pub const MINUS: NameId = NameId(51);

/// `+`: primitive of the Prelude.
pub const PLUS: NameId = NameId(52);

/// `*`: primitive of the Prelude.
pub const TIMES: NameId = NameId(53);

/// `quot`: primitive of the Prelude.
pub const QUOT: NameId = NameId(54);

/// `rem`: primitive of the Prelude.
pub const REM: NameId = NameId(55);

/// `==`: primitive of the Prelude.
pub const EQUAL: NameId = NameId(56);

/// `<`: primitive of the Prelude.
pub const LESS: NameId = NameId(57);

/// `eqChar`: primitive of the Prelude.
pub const EQ_CHAR: NameId = NameId(58);

/// `ord`: primitive of the Prelude.
pub const ORD: NameId = NameId(59);

/// `chr`: primitive of the Prelude.
pub const CHR: NameId = NameId(60);

/// `showInt`: primitive of the Prelude.
pub const SHOW_INT: NameId = NameId(61);

/// `error`: primitive of the Prelude.
pub const ERROR: NameId = NameId(62);

/// `.`: operator of the Prelude.
pub const COMPOSE: NameId = NameId(63);

/// `++`: operator of the Prelude.
pub const APPEND: NameId = NameId(64);

/// `:*:`: operator of the Prelude.
pub const PRODUCT: NameId = NameId(65);

/// `/=`: operator of the Prelude.
pub const NOT_EQUAL: NameId = NameId(66);

/// `<=`: operator of the Prelude.
pub const LESS_EQUAL: NameId = NameId(67);

/// `>`: operator of the Prelude.
pub const GREATER: NameId = NameId(68);

/// `>=`: operator of the Prelude.
pub const GREATER_EQUAL: NameId = NameId(69);

/// `&&`: operator of the Prelude.
pub const AND: NameId = NameId(70);

/// `||`: operator of the Prelude.
pub const OR: NameId = NameId(71);

/// `$`: operator of the Prelude.
pub const APPLY: NameId = NameId(72);

/// `Int`: type of the Prelude.
pub const INT: NameId = NameId(73);

/// `Char`: type of the Prelude.
pub const CHAR: NameId = NameId(74);

/// `String`: type of the Prelude.
pub const STRING: NameId = NameId(75);

/// `Bool`: type of the Prelude.
pub const BOOL: NameId = NameId(76);

/// `Maybe`: type of the Prelude.
pub const MAYBE: NameId = NameId(77);

/// `Either`: type of the Prelude.
pub const EITHER: NameId = NameId(78);

/// `Unit`: type of the Prelude.
pub const UNIT: NameId = NameId(79);

/// `Sum`: type of the Prelude.
pub const SUM: NameId = NameId(80);

/// `Prod`: type of the Prelude.
pub const PROD: NameId = NameId(81);

/// `Con`: type of the Prelude.
pub const CON: NameId = NameId(82);

/// `ConDescr`: type of the Prelude.
pub const CON_DESCR: NameId = NameId(83);

/// `False`: constructor of the Prelude.
pub const FALSE: NameId = NameId(84);

/// `True`: constructor of the Prelude.
pub const TRUE: NameId = NameId(85);

/// `Nothing`: constructor of the Prelude.
pub const NOTHING: NameId = NameId(86);

/// `Just`: constructor of the Prelude.
pub const JUST: NameId = NameId(87);

/// `Left`: constructor of the Prelude.
pub const LEFT: NameId = NameId(88);

/// `Right`: constructor of the Prelude.
pub const RIGHT: NameId = NameId(89);

/// `Inl`: constructor of the Prelude.
pub const INL: NameId = NameId(90);

/// `Inr`: constructor of the Prelude.
pub const INR: NameId = NameId(91);

/// `conName`: function of the Prelude.
pub const CON_NAME: NameId = NameId(92);

/// `conArity`: function of the Prelude.
pub const CON_ARITY: NameId = NameId(93);

/// `id`: function of the Prelude.
pub const ID: NameId = NameId(94);

/// `const`: function of the Prelude.
pub const CONST: NameId = NameId(95);

/// `flip`: function of the Prelude.
pub const FLIP: NameId = NameId(96);

/// `not`: function of the Prelude.
pub const NOT: NameId = NameId(97);

/// `otherwise`: function of the Prelude.
pub const OTHERWISE: NameId = NameId(98);

/// `negate`: function of the Prelude.
pub const NEGATE: NameId = NameId(99);

/// `fst`: function of the Prelude.
pub const FST: NameId = NameId(100);

/// `snd`: function of the Prelude.
pub const SND: NameId = NameId(101);

/// `map`: function of the Prelude.
pub const MAP: NameId = NameId(102);

/// `filter`: function of the Prelude.
pub const FILTER: NameId = NameId(103);

/// `foldr`: function of the Prelude.
pub const FOLDR: NameId = NameId(104);

/// `concat`: function of the Prelude.
pub const CONCAT: NameId = NameId(105);

/// `length`: function of the Prelude.
pub const LENGTH: NameId = NameId(106);

/// `maybe`: function of the Prelude.
pub const MAYBE_OF: NameId = NameId(107);

/// `either`: function of the Prelude.
pub const EITHER_OF: NameId = NameId(108);

/// `[]`: source name of a list, of the empty tuple or of a tuple.
pub const EMPTY_BRACKETS: NameId = NameId(109);

/// `()`: source name of a list, of the empty tuple or of a tuple.
pub const EMPTY_PARENTHESES: NameId = NameId(110);

/// `(,)`: source name of a list, of the empty tuple or of a tuple.
pub const TUPLE_2_SYNTAX: NameId = NameId(111);

/// `(,,)`: source name of a list, of the empty tuple or of a tuple.
pub const TUPLE_3_SYNTAX: NameId = NameId(112);

/// `(,,,)`: source name of a list, of the empty tuple or of a tuple.
pub const TUPLE_4_SYNTAX: NameId = NameId(113);

/// `(,,,,)`: source name of a list, of the empty tuple or of a tuple.
pub const TUPLE_5_SYNTAX: NameId = NameId(114);

/// `(,,,,,)`: source name of a list, of the empty tuple or of a tuple.
pub const TUPLE_6_SYNTAX: NameId = NameId(115);

/// `(,,,,,,)`: source name of a list, of the empty tuple or of a tuple.
pub const TUPLE_7_SYNTAX: NameId = NameId(116);

/// `List`: name that core gives.
pub const LIST: NameId = NameId(117);

/// `Nil`: name that core gives.
pub const NIL: NameId = NameId(118);

/// `Cons`: name that core gives.
pub const CONS: NameId = NameId(119);

/// `Tuple0`: name that core gives.
pub const TUPLE_0: NameId = NameId(120);

/// `Tuple2`: name that core gives.
pub const TUPLE_2: NameId = NameId(121);

/// `Tuple3`: name that core gives.
pub const TUPLE_3: NameId = NameId(122);

/// `Tuple4`: name that core gives.
pub const TUPLE_4: NameId = NameId(123);

/// `Tuple5`: name that core gives.
pub const TUPLE_5: NameId = NameId(124);

/// `Tuple6`: name that core gives.
pub const TUPLE_6: NameId = NameId(125);

/// `Tuple7`: name that core gives.
pub const TUPLE_7: NameId = NameId(126);

/// `EP`: name that core gives.
pub const EP: NameId = NameId(127);
