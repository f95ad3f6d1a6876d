// Equal copies of what tables are made of.
use crate::{
    Aggregate, Assigned, Assignment, Change, ColType, Column, Engine, IndexKind, Mutation, Schema,
    SkipIndex, Test, Value,
};
use mt_base::{NoMemory, Twin};
use std::alloc::Global;

impl Twin for Value {
    fn twin(&self, alloc: Global) -> Result<Self, NoMemory> {
        match self {
            Value::UInt8(n) => Ok(Value::UInt8(*n)),
            Value::UInt16(n) => Ok(Value::UInt16(*n)),
            Value::UInt32(n) => Ok(Value::UInt32(*n)),
            Value::UInt64(n) => Ok(Value::UInt64(*n)),
            Value::Int8(n) => Ok(Value::Int8(*n)),
            Value::Int16(n) => Ok(Value::Int16(*n)),
            Value::Int32(n) => Ok(Value::Int32(*n)),
            Value::Int64(n) => Ok(Value::Int64(*n)),
            Value::Text(bytes) => Ok(Value::Text(bytes.twin(alloc)?)),
        }
    }
}

impl Twin for ColType {
    fn twin(&self, _alloc: Global) -> Result<Self, NoMemory> {
        Ok(*self)
    }
}

impl Twin for Column {
    fn twin(&self, alloc: Global) -> Result<Self, NoMemory> {
        Ok(Column {
            name: self.name.twin(alloc)?,
            col_type: self.col_type,
            function: self.function,
        })
    }
}

impl Twin for IndexKind {
    fn twin(&self, _alloc: Global) -> Result<Self, NoMemory> {
        Ok(*self)
    }
}

impl Twin for SkipIndex {
    fn twin(&self, alloc: Global) -> Result<Self, NoMemory> {
        Ok(SkipIndex {
            name: self.name.twin(alloc)?,
            column: self.column,
            kind: self.kind,
            granularity: self.granularity,
        })
    }
}

impl Twin for Schema {
    fn twin(&self, alloc: Global) -> Result<Self, NoMemory> {
        Ok(Schema {
            columns: self.columns.twin(alloc)?,
            engine: self.engine.twin(alloc)?,
            key: self.key.twin(alloc)?,
            primary: self.primary.twin(alloc)?,
            partition: self.partition,
            granularity: self.granularity,
            indexes: self.indexes.twin(alloc)?,
        })
    }
}

impl Twin for Test {
    fn twin(&self, alloc: Global) -> Result<Self, NoMemory> {
        Ok(Test {
            column: self.column,
            comparison: self.comparison,
            literals: self.literals.twin(alloc)?,
        })
    }
}

impl Twin for Engine {
    fn twin(&self, alloc: Global) -> Result<Self, NoMemory> {
        match self {
            Engine::Plain => Ok(Engine::Plain),
            Engine::Replacing(version) => Ok(Engine::Replacing(*version)),
            Engine::Summing(places) => Ok(Engine::Summing(places.twin(alloc)?)),
            Engine::Collapsing(sign) => Ok(Engine::Collapsing(*sign)),
            Engine::Versioned { sign, version } => Ok(Engine::Versioned {
                sign: *sign,
                version: *version,
            }),
            Engine::Aggregating => Ok(Engine::Aggregating),
        }
    }
}

impl Twin for Assigned {
    fn twin(&self, alloc: Global) -> Result<Self, NoMemory> {
        match self {
            Assigned::Literal(value) => Ok(Assigned::Literal(value.twin(alloc)?)),
            Assigned::Column(column) => Ok(Assigned::Column(*column)),
            Assigned::Plus { column, number } => Ok(Assigned::Plus {
                column: *column,
                number: number.twin(alloc)?,
            }),
            Assigned::Minus { column, number } => Ok(Assigned::Minus {
                column: *column,
                number: number.twin(alloc)?,
            }),
        }
    }
}

impl Twin for Assignment {
    fn twin(&self, alloc: Global) -> Result<Self, NoMemory> {
        Ok(Assignment {
            column: self.column,
            value: self.value.twin(alloc)?,
        })
    }
}

impl Twin for Change {
    fn twin(&self, alloc: Global) -> Result<Self, NoMemory> {
        match self {
            Change::Delete(condition) => Ok(Change::Delete(condition.twin(alloc)?)),
            Change::Update {
                assignments,
                condition,
            } => Ok(Change::Update {
                assignments: assignments.twin(alloc)?,
                condition: condition.twin(alloc)?,
            }),
        }
    }
}

impl Twin for Mutation {
    fn twin(&self, alloc: Global) -> Result<Self, NoMemory> {
        Ok(Mutation {
            number: self.number,
            change: self.change.twin(alloc)?,
        })
    }
}

impl Twin for Aggregate {
    fn twin(&self, _alloc: Global) -> Result<Self, NoMemory> {
        Ok(*self)
    }
}
