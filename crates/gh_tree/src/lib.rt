//! Syntax trees: one variant for each production of the grammar, what each is printed as, and how deep a tree is.
#![tactic(auto)]

mod cut;
mod depth;
mod depth_items;
mod depth_tops;
mod expressions;
mod item_laws;
mod laws;
mod module_tree;
mod names;
mod patterns;
mod symbol;
mod syms;
mod tops;
mod types;

pub use cut::{block_mark, header_end, item_end};
pub use depth_items::header_depth;
pub use expressions::{
    Aexp, Alt, AltGuard, AltItem, Alts, Decl, DeclItem, Decls, Exp, Guard, Locals, NextOperand,
    Open, Operand, OperandList, Part, Redef, RedefItem, Redefs, Rhs, Where,
};
pub use item_laws::{has_its_items, has_marks_again, has_one_tree_by_items, has_placed_marks};
pub use laws::{has_one_export_list, has_one_pattern, has_one_type};
pub use module_tree::{Header, Item, ModuleTree, NextItem};
pub use names::{
    BlockMark, Con, ConOp, FixityWord, GenCon, Name, NextName, NextOp, NextVar, Op, Var, VarOp,
};
pub use patterns::{ArgPattern, FunLhs, NextPattern, PatOperand, PatPart, Pattern};
pub use symbol::{Kind, Sym};
pub use syms::syms_of;
pub use tops::{
    Alias, Constr, Context, Dep, Deps, Entities, Entity, Export, ExportList, Exports, GenVars,
    Import, ImportList, NextCon, NextConstr, NextDep, NextEntity, NextExport, OtherVars, Parts,
    Top,
};
pub use types::{ArgType, Arrow, BType, TypeExpr, TypePart};
